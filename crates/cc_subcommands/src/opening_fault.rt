//! Why no node begins so, in the words of the command line.

use cc_node::OpeningRule;
use std::fmt;

/// The rule that the words of `format` break.
#[derive(Clone, Copy)]
pub struct BadOpening(pub OpeningRule);

impl fmt::Display for BadOpening {
    fn fmt<W: fmt::Write>(&self, f: &mut fmt::Formatter<W>) -> fmt::Result {
        f.write_str(match self.0 {
            OpeningRule::Beta => "--beta isn't a fraction above 0 and at most 1",
            OpeningRule::Gamma => "--gamma isn't a fraction above 0 and at most 1",
            OpeningRule::Initial => {
                "--initial doesn't ascend: each number is greater than the one before it"
            }
            OpeningRule::Contacts => {
                "--contacts doesn't ascend: each number is greater than the one before it"
            }
            OpeningRule::Member => {
                "the node isn't in its own --initial: a member at the start is, and one that enters later has none"
            }
            OpeningRule::OwnContact => "the node is among its own --contacts: they are others",
            OpeningRule::Zero => "an id is 0: they begin at 1",
            OpeningRule::Share => "--share isn't a number from 1 to 32",
            OpeningRule::Many => {
                "--initial and --contacts name more than 256 nodes, itself among them"
            }
        })
    }
}
