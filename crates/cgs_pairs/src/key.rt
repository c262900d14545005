//! The key list by which the term order compares a monomial.

ghost use Rattle.std.specs.Prelude.{◌≡◌, ◌+◌, ◌<◌, ◌^◌, ◌++◌, length, sum, IfOk, OnOk};
ghost use Rattle.cgs_order.specs.TermOrder.{partial_sums, block_key, key};

use cgs_order::{BlockOrder, Kind};
use std::alloc::{AllocError, Global};

/// The key list of a monomial: the key of the variables' block, and after it the key of the parameters' block.
pub(crate) fn key_of(alloc: Global, order: &BlockOrder, m: &[u16]) -> Result<Vec<u64>, AllocError>
    requires { length m.now ≡ order.now.head + order.now.tail }
    ensures { IfOk result (λ list. list.items ≡ key order.now m.now) }
{
    let head = order.head as usize;
    let places = head + order.tail as usize;
    let mut list = Vec::with_capacity(alloc, places + 2)?;
    push_block(&mut list, order.kind, &m[..head])?;
    push_block(&mut list, order.kind, &m[head..places])?;
    Ok(list)
}

// Puts the key of a block at the end.
fn push_block(list: &mut Vec<u64>, kind: Kind, block: &[u16]) -> Result<(), AllocError>
    requires { length block.now < 2 ^ 40 }
    ensures { OnOk result (list.new.items ≡ list.old.items ++ block_key kind block.now) }
{
    match kind {
        Kind::Lex => push_places(list, block)?,
        Kind::GrLex => {
            list.push(degree(block))?;
            push_places(list, block)?;
        }
        Kind::GrevLex => {
            let start = list.len();
            push_sums(list, block)?;
            list[start..].reverse();
        }
    }
    Ok(())
}

// Puts the exponents of a block at the end.
fn push_places(list: &mut Vec<u64>, block: &[u16]) -> Result<(), AllocError>
    ensures { OnOk result (list.new.items ≡ list.old.items ++ block.now) }
{
    for &x in block {
        list.push(x as u64)?;
    }
    Ok(())
}

// Puts the sums of the first exponents, of the first two, and so on at the end.
fn push_sums(list: &mut Vec<u64>, block: &[u16]) -> Result<(), AllocError>
    requires { length block.now < 2 ^ 40 }
    ensures { OnOk result (list.new.items ≡ list.old.items ++ partial_sums 0 block.now) }
{
    let mut sum: u64 = 0;
    for &x in block {
        sum += x as u64;
        list.push(sum)?;
    }
    Ok(())
}

// The sum of the exponents of a block.
fn degree(block: &[u16]) -> u64
    requires { length block.now < 2 ^ 40 }
    ensures { result ≡ sum block.now }
{
    let mut degree: u64 = 0;
    for &x in block {
        degree += x as u64;
    }
    degree
}
