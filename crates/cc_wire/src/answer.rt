//! Answers as bytes.

ghost use Rattle.std.specs.Prelude.{◌≡◌, ◌≤◌, ◌+◌, ℕ, List, [], ◌++◌, length, IfOk, OnOk, OnErr, IsOk, Ok, vec_len};
ghost use Rattle.std.specs.Vec.{vec_capacity};
ghost use Rattle.cc_wire.specs.Writers.{Writes};
ghost use Rattle.cc_wire.specs.Readers.{Gives, whole};
ghost use Rattle.cc_wire.specs.Answers.{answer_at, answer_spelling, IsAnswer, SpellsAnswer};

use crate::fault::WireFault;
use crate::number_list::put_number_list;
use crate::reader::Reader;
use crate::writer::{put_flag, put_u8, put_u64, put_view, settled};
use cc_messages::Answer;
use cc_views::NoMemory;
use std::alloc::{AllocError, Global};

impl<'a> Reader<'a> {
    /// An answer: its kind, and the field of that. BadKind for a kind that no answer has.
    #[tactic(auto, unfolding(crate::specs::Answers::answer_at))]
    pub fn answer(&mut self, alloc: Global) -> Result<Answer, WireFault>
        ensures { Gives (λ x. (x, self.new)) result (answer_at self.old) }
    {
        match self.u8()? {
            1 => Ok(Answer::Stored),
            2 => self.view(alloc).map(Answer::Seen),
            3 => self.u64().map(Answer::Max),
            4 => self.flag().map(Answer::Flag),
            5 => self.number_list(alloc).map(Answer::Set),
            kind => Err(WireFault::BadKind(kind)),
        }
    }
}

/// Appends an answer, as `Reader::answer` reads it. On an `Err` a part may stand at the end.
pub fn put_answer(out: &mut Vec<u8>, answer: &Answer) -> Result<(), AllocError>
    ensures writes { Writes out.old out.new (answer_spelling answer.now) result }
    ensures fits { OnOk result (IsAnswer answer.now) }
{
    match answer {
        Answer::Stored => put_u8(out, 1),
        Answer::Seen(view) => {
            put_u8(out, 2)?;
            put_view(out, view)
        }
        Answer::Max(number) => {
            put_u8(out, 3)?;
            put_u64(out, *number)
        }
        Answer::Flag(flag) => {
            put_u8(out, 4)?;
            put_flag(out, *flag)
        }
        Answer::Set(numbers) => {
            put_u8(out, 5)?;
            put_number_list(out, numbers)
        }
    }
}

#[tactic(auto, unfolding(crate::specs::Readers::whole))]
fn decode_all(alloc: Global, bytes: &[u8]) -> Result<Answer, WireFault>
    ensures { Gives (λ x. x) result (whole answer_at bytes.now) }
{
    let mut reader = Reader::new(bytes);
    let answer = reader.answer(alloc)?;
    if let Err(fault) = reader.end() {
        drop(answer);
        return Err(fault);
    }
    Ok(answer)
}

/// The answer that the bytes spell, all of the bytes.
/// The fault is that of the first field, from left to right, that can't be read.
pub fn decode_answer(alloc: Global, bytes: &[u8]) -> Result<Answer, WireFault>
    // What is read is spelled so.
    ensures found { IfOk result (λ x. SpellsAnswer bytes.now x) }
    // What is spelled so is read, unless memory runs out.
    ensures only { (x : Answer) → SpellsAnswer bytes.now x → Gives (λ x. x) result (Ok x) }
    // Which fault it is.
    ensures exact { Gives (λ x. x) result (whole answer_at bytes.now) }
{
    decode_all(alloc, bytes)
}

/// Appends the spelling of an answer. On an `Err` nothing has changed.
pub fn encode_answer(answer: &Answer, out: &mut Vec<u8>) -> Result<(), NoMemory>
    ensures spelled { OnOk result (SpellsAnswer (answer_spelling answer.now) answer.now) }
    ensures ok { OnOk result (out.new.items ≡ out.old.items ++ answer_spelling answer.now) }
    ensures err { OnErr result (out.new.items ≡ out.old.items) }
    ensures room { vec_len out.old + length (answer_spelling answer.now) ≤ vec_capacity out.old → IsOk result }
{
    let start = out.len();
    let put = put_answer(out, answer);
    settled(out, start, put)
}

/// Each answer has one spelling, and none begins another.
pub fn one_spelling_of_answers()
    ensures one { (a b u w : List ℕ) (x y : Answer) → SpellsAnswer a x → SpellsAnswer b y → a ++ u ≡ b ++ w → (x ≡ y) × (a ≡ b) }
    ensures same { (a b : List ℕ) (x : Answer) → SpellsAnswer a x → SpellsAnswer b x → a ≡ b }
{}
