//! What a program promises of a call, whatever the program. Each answer is one row of a table. What the answer says of
//! the words, which count rose, the exit status and the message follow from its row. The definitions are in specs/.
#![tactic(auto)]

pub mod answer;
pub mod heading;
pub mod operand;
