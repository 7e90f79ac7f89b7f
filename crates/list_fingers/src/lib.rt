// The eleven finger names, from one fixed table, by finger position.
#![tactic(auto)]

ghost use Rattle.std.specs.Prelude.{◌≡◌, ◌<◌, ◌≤◌};
ghost use Rattle.list_fingers.specs.Fingers.{finger_of};

// A name's bytes, the first len of twelve: document 01 asks for byte arrays with lengths.
#[derive(Clone, Copy)]
pub struct Name {
    pub text: [u8; 12],
    pub len: usize,
}

const FINGERS: [Name; 11] = [
    Name {
        text: *b"unknown     ",
        len: 7,
    },
    Name {
        text: *b"right thumb ",
        len: 11,
    },
    Name {
        text: *b"right index ",
        len: 11,
    },
    Name {
        text: *b"right middle",
        len: 12,
    },
    Name {
        text: *b"right ring  ",
        len: 10,
    },
    Name {
        text: *b"right little",
        len: 12,
    },
    Name {
        text: *b"left thumb  ",
        len: 10,
    },
    Name {
        text: *b"left index  ",
        len: 10,
    },
    Name {
        text: *b"left middle ",
        len: 11,
    },
    Name {
        text: *b"left ring   ",
        len: 9,
    },
    Name {
        text: *b"left little ",
        len: 11,
    },
];

// The name of a finger position.
pub fn finger(position: usize) -> Name
    requires { position < 11 }
    ensures whole { result ≡ finger_of position }
    ensures fits { result.len ≤ 12 }
{
    FINGERS[position]
}
