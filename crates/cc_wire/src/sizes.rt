//! How long spellings are at most.

ghost use Rattle.cc_wire.specs.Sizes.{TakesAtMost};
ghost use Rattle.cc_wire.specs.Spellings.{value_spelling, IsValue, row_spelling, IsRow, view_spelling, IsView, IsNumberList};
ghost use Rattle.cc_wire.specs.Messages.{message_spelling, IsMessage};
ghost use Rattle.cc_wire.specs.Commands.{command_spelling, IsCommand};
ghost use Rattle.cc_wire.specs.Answers.{answer_spelling, IsAnswer};
ghost use Rattle.cc_messages.specs.declared.answer.Answer.TheVariants as answers;
ghost use Rattle.cc_wire.specs.Events.{event_spelling, IsEvent};

/// How many bytes the spelling of each thing has at most. So an event always fits into 65,536 bytes.
pub fn largest_sizes()
    ensures value { TakesAtMost 203 IsValue value_spelling }
    ensures row { TakesAtMost 215 IsRow row_spelling }
    ensures view { TakesAtMost 55042 IsView view_spelling }
    ensures message { TakesAtMost 58126 IsMessage message_spelling }
    ensures command { TakesAtMost 66 IsCommand command_spelling }
    ensures set { TakesAtMost 32771 IsNumberList (λ numbers. answer_spelling (answers.Set numbers)) }
    ensures answer { TakesAtMost 55043 IsAnswer answer_spelling }
    ensures event { TakesAtMost 58139 IsEvent event_spelling }
{}
