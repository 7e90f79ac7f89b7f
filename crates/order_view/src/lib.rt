// The view that an order names, and the line count that the order was made for, whatever else it orders.
#![tactic(auto)]

ghost use Rattle.order_view.specs.Named.{ViewNamed};

use find_parts::site::{Site, site_at};
use find_view::find_view;
use format::ViewName;
use outcome::{Refusal, Refused};

// Where the view stands that an order names and was made for, in any bytes: 1 to 13, 14.
pub fn named_view(bytes: &[u8], view: ViewName, count: usize) -> Result<Site, Refused>
    ensures { ViewNamed bytes.now view count result }
{
    let found = find_view(bytes, view)?;
    let site = site_at(bytes, found.blocks, found.scale.widths);
    if site.lines != count {
        return Err(Refusal::OtherCount.into());
    }
    Ok(site)
}
