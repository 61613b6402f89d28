//! What a running node remembers of the last ask of each session.

use cc_messages::Command;
use cc_ops::Asked;
use cc_policies::LastAsks;
use cc_views::Text;
use std::process::Abort;

fn ask(session: u64, request: u64, command: Command) -> Asked {
    Asked {
        session,
        request,
        command,
    }
}

fn check<R: Abort>(rt: &R, asks: &LastAsks) {
    let same = [
        asks.differs(&ask(7, 3, Command::Store(Text::new(b"a").unwrap()))),
        asks.differs(&ask(7, 4, Command::Collect)),
        asks.differs(&ask(7, 2, Command::SetFlag)),
        asks.differs(&ask(8, 3, Command::Collect)),
    ];
    let others = [
        asks.differs(&ask(7, 3, Command::Store(Text::new(b"b").unwrap()))),
        asks.differs(&ask(7, 3, Command::Store(Text::new(b"aa").unwrap()))),
        asks.differs(&ask(7, 3, Command::ReadMax)),
    ];
    assert!(rt; (same, others) == ([false; 4], [true; 3]));
}

// Session 7 stored `a` under number 3.
#[test]
fn another_command_under_the_last_number_differs(rt: HostRuntime) {
    let text = Text::new(b"a").unwrap();
    let mut asks = LastAsks::new(rt.alloc()).expect(&rt, "asks");
    asks.remember(&ask(7, 2, Command::Collect));
    asks.remember(&ask(7, 3, Command::Store(text)));
    check(&rt, &asks);
}
