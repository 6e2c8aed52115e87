// What the replaying programs share: standard input is read line by line, and a case once, by the form that its call gives, into
// numbers and buffers that the call then takes. It serves the programs `replay_paths`, `replay_groupings` and `replay_sheets` alone, and
// no part of the core rests on it: its functions promise no more than that they end and stay inside.
//
// An input has parts, and a line
//
//     part NAME
//
// starts one: the lines behind it are those of the program's part NAME, and nothing is kept of the part before. They are one case
// each, which names an export and has its arguments in their order:
//
//     NAME ARG ..
//
// Single spaces; decimal numbers; a buffer is x and its bytes in hexadecimal, n and numbers between slashes, each in 8 bytes, or p and
// a path, which is packed. A form has one letter for each argument: n a number, b a buffer of at most 1,024 bytes, d a digest, which is
// a buffer of 32 bytes, and o the length of the output buffer, at most 256. A line of another form, or over 4,096 bytes, prints
// `unreadable`; an empty line and one that starts with # print nothing. What is printed for a call is its numbers, and behind those of
// a call that writes the whole output buffer, which was filled with ee before.
//
// To add a call, give it an arm in the `match` on names of its part, in one of the programs: its name, its form, and the call, in which
// `c.n[6]` is the seventh number of the line and `c.b[0]`, `c.b[1]` are its first and second buffer. Then add cases and their answers in
// tools/.

#![tactic(auto)]

pub mod inner;
