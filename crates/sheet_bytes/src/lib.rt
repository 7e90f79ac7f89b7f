// No code: what the writers of a sheet go by, the bytes of each of its fields and how many they are, and that these are the sheet of
// the definitions. Definitions are in specs/.
#![tactic(auto)]
