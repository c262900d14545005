//! A fault and a history printed, with ample memory.

ghost use Rattle.std.specs.Prelude.{◌≡◌, IfOk};
ghost use Rattle.cgs_board.specs.Examples.{two_workers};

use crate::{fault_text, history_text};
use cgs_board::{Event, EventList};
use cgs_path::Path;
use cgs_problem::{Text, TextFault, TextKind};
use std::alloc::{AllocError, Global};
use std::test::Fail;

#[test]
fn a_fault(rt: HostRuntime) -> Result<(), Fail> {
    let mut out = Text::new(rt.alloc());
    let fault = TextFault {
        line: 12,
        kind: TextKind::Syntax,
    };
    fault_text(fault, &mut out)?;
    assert_eq!(rt; out.as_slice(), b"fault line 12 syntax\n".as_slice());
    Ok(())
}

// Two workers, a root with one child, and an entry of the child.
fn events(alloc: Global) -> Result<EventList, AllocError>
    ensures { IfOk result (λ events. events ≡ two_workers) }
{
    let root = Path::root(alloc);
    let child = Path::from_slice(alloc, &[0])?;
    let mut events = EventList::new(alloc);
    events.push(Event::Claim {
        worker: 0,
        path: root.copy()?,
    })?;
    events.push(Event::Give {
        worker: 0,
        path: root,
        children: 1,
        entries: 0,
    })?;
    events.push(Event::Claim {
        worker: 1,
        path: child.copy()?,
    })?;
    events.push(Event::Give {
        worker: 1,
        path: child,
        children: 0,
        entries: 1,
    })?;
    Ok(events)
}

#[test]
fn a_history(rt: HostRuntime) -> Result<(), Fail> {
    let events = events(rt.alloc())?;
    cgs_board::two_workers();
    let mut out = Text::new(rt.alloc());
    history_text(&events, &mut out)?;
    let printed = b"history 4\nclaim 0 -\ngive 0 - 1 0\nclaim 1 0\ngive 1 0 0 1\n".as_slice();
    assert_eq!(rt; out.as_slice(), printed);
    Ok(())
}
