// The program sludgeline as a library: its arguments, and the conversation over standard input and output.
//
//   serving   what the program does: a conversation, or what its argument asks
//   talking   standard input in blocks, and the answers on standard output
//   channel   one read, and a write of all bytes, each tried again where it is interrupted or would block
#![tactic(auto)]

mod channel;
mod serving;
mod talking;

pub use serving::serve;
