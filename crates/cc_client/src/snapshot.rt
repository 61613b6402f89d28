//! A snapshot: what all nodes had at one moment. Two collects in a row that show one view show it (Afek et al., "Atomic Snapshots of
//! Shared Memory", the double collect).

use crate::advice::Advice;
use crate::command::{Asking, Ended};
use crate::deadline::Deadline;
use crate::printed::{print_answer, print_no_snapshot};
use crate::silence::Told;
use cc_command_line::AskOrder;
use cc_messages::{Answer, Command, NumberList};
use cc_objects::{flag_of, max_of, set_of};
use cc_policies::Client;
use cc_views::{NoMemory, View};
use std::alloc::{AllocError, Global};
use std::io;
use std::io::Write;
use std::net::{Net, TcpStream};
use std::time::Clock;

/// Collects until two collects in a row show one view. It prints what the order's command reads off that view, and how many collects
/// it took; `no snapshot` where no two agreed in time; else how the last collect ended.
pub(crate) fn take_snapshot<R: Net<Stream = TcpStream> + Clock, W: Write>(
    rt: &R,
    alloc: Global,
    order: &AskOrder,
    output: &mut W,
) -> io::Result<Told> {
    let mut taking = Taking {
        asking: Asking::of(order, Client::new(order.session, Command::Collect)),
        last: None,
        collects: 0,
    };
    let taken = taking.take(rt, alloc, order);
    let told = taking.print(alloc, order, taken, output);
    drop(taking);
    told
}

// A client that collects, what its last collect showed, and how many were answered.
#[derive(Drop)]
struct Taking {
    asking: Asking,
    last: Option<View>,
    collects: u64,
}

impl Taking {
    // What two collects in a row showed; else how the last collect ended, None where nothing came in time.
    fn take<R: Net<Stream = TcpStream> + Clock>(
        &mut self,
        rt: &R,
        alloc: Global,
        order: &AskOrder,
    ) -> Result<View, Option<Ended>> {
        let deadline = Deadline::new(rt, order.timeout);
        for _ in 0..u64::MAX {
            match self.asking.ask(rt, alloc, order, &deadline) {
                Some(Ended::Answered(Answer::Seen(view))) => {
                    self.collects = self.collects.saturating_add(1);
                    if self.is_last(&view) {
                        return Ok(view);
                    }
                    drop(self.last.replace(view));
                    self.asking.go_on();
                }
                ended => return Err(ended),
            }
        }
        Err(None)
    }

    // Whether the collect before showed the same. One number of a node stands for one value.
    fn is_last(&self, view: &View) -> bool {
        match &self.last {
            Some(last) => last.rows() == view.rows(),
            None => false,
        }
    }

    fn print<W: Write>(
        &self,
        alloc: Global,
        order: &AskOrder,
        taken: Result<View, Option<Ended>>,
        output: &mut W,
    ) -> io::Result<Told> {
        match taken {
            Ok(view) => {
                let answer = answer_of(alloc, &order.command, view)?;
                let printed = print_answer(alloc, order.form, &answer, Some(self.collects), output);
                drop(answer);
                printed?;
                Ok(Told::done())
            }
            Err(None) if self.collects > 1 => {
                print_no_snapshot(order.form, output)?;
                Ok(Told::refused(Some(Advice::NoTwoAgree(self.collects))))
            }
            Err(ended) => self.asking.print(alloc, order, ended, output),
        }
    }
}

// What a reading finds in a view.
fn answer_of(alloc: Global, command: &Command, view: View) -> io::Result<Answer> {
    let answer = match command {
        Command::ReadMax => Answer::Max(max_of(&view)),
        Command::ReadFlag => Answer::Flag(flag_of(&view)),
        Command::ReadSet => return members_of(alloc, view),
        _ => return Ok(Answer::Seen(view)),
    };
    drop(view);
    Ok(answer)
}

fn members_of(alloc: Global, view: View) -> io::Result<Answer> {
    let members = set_of(alloc, &view);
    drop(view);
    match members {
        Ok(members) => Ok(Answer::Set(NumberList::from_ascending(members))),
        Err(NoMemory) => Err(AllocError.into()),
    }
}
