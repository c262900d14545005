//! The printed history of a board.

ghost use Rattle.std.specs.List.{flat_map};
ghost use Rattle.cgs_board.specs.History.{HasQuit};
ghost use Rattle.cgs_canonical.specs.Printing.{Prints};
ghost use Rattle.cgs_print.specs.History.{worker_text, event_head, node_numbers, claim_line, give_line, event_line, history_line, history_text};

use crate::list::path_text;
use cgs_board::{Event, EventList};
use cgs_canonical::push_all;
use cgs_path::Path;
use cgs_problem::Text;
use itoa::Buffer;
use std::alloc::AllocError;

/// Appends the number of events and a line for each in order. Nobody may have given up. For want of memory a front of the
/// text is appended.
pub fn history_text(events: &EventList, out: &mut Text) -> Result<(), AllocError>
    requires none_quit { HasQuit events.now → ⊥ }
    ensures { Prints result out.old out.new (history_text events.now) }
{
    history_line(events.len(), out)?;
    event_lines(events.as_slice(), out)
}

/// The first line, with the number of events.
fn history_line(count: usize, out: &mut Text) -> Result<(), AllocError>
    ensures { Prints result out.old out.new (history_line count) }
{
    let mut buffer = Buffer::new();
    push_all(out, &[b"history ", buffer.format(count).as_bytes(), b"\n"])
}

/// A line for each event.
fn event_lines(events: &[Event], out: &mut Text) -> Result<(), AllocError>
    ensures { Prints result out.old out.new (flat_map event_line events.now) }
{
    for event in events {
        event_line(event, out)?;
    }
    Ok(())
}

/// The line of an event.
fn event_line(event: &Event, out: &mut Text) -> Result<(), AllocError>
    ensures { Prints result out.old out.new (event_line event.now) }
{
    match event {
        Event::Claim { worker, path } => claim_line(*worker, path, out),
        Event::Give {
            worker,
            path,
            children,
            entries,
        } => give_line(*worker, path, *children, *entries, out),
        Event::Quit { .. } => Ok(()),
    }
}

/// The line of a branch that was claimed.
fn claim_line(worker: u32, path: &Path, out: &mut Text) -> Result<(), AllocError>
    ensures { Prints result out.old out.new (claim_line worker path.now) }
{
    event_head(b"claim", worker, path, out)?;
    out.extend_from_slice(b"\n")
}

/// The line of a branch that was given back with its node.
fn give_line(
    worker: u32,
    path: &Path,
    children: usize,
    entries: u32,
    out: &mut Text,
) -> Result<(), AllocError>
    ensures { Prints result out.old out.new (give_line worker path.now children entries) }
{
    event_head(b"give", worker, path, out)?;
    node_numbers(children, entries, out)
}

/// What happened, by which worker and to the branch at which path.
fn event_head(word: &[u8], worker: u32, path: &Path, out: &mut Text) -> Result<(), AllocError>
    ensures { Prints result out.old out.new (event_head word.now worker path.now) }
{
    worker_text(word, worker, out)?;
    path_text(path, out)
}

/// What happened, and by which worker.
fn worker_text(word: &[u8], worker: u32, out: &mut Text) -> Result<(), AllocError>
    ensures { Prints result out.old out.new (worker_text word.now worker) }
{
    let mut buffer = Buffer::new();
    push_all(out, &[word, b" ", buffer.format(worker).as_bytes(), b" "])
}

/// The numbers of children and entries of a node, to the end of the line.
fn node_numbers(children: usize, entries: u32, out: &mut Text) -> Result<(), AllocError>
    ensures { Prints result out.old out.new (node_numbers children entries) }
{
    let mut first = Buffer::new();
    let mut second = Buffer::new();
    push_all(
        out,
        &[
            b" ",
            first.format(children).as_bytes(),
            b" ",
            second.format(entries).as_bytes(),
            b"\n",
        ],
    )
}
