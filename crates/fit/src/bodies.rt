// The bodies of a match, in variable order.
ghost use Rattle.std.specs.Prelude.{◌≡◌, ◌≤◌, ◌<◌, length, replicate};
ghost use Rattle.fit.specs.Told.Told.{FirstWritten, BodiesTold};

use crate::fitting::{Pair, TABLE};
use term::lent::clear;
use term::part::write_body;

// Writes the body of a variable's first occurrence.
fn write_first(pair: &Pair, table: &[u32; TABLE], x: usize, out: &mut [u32]) -> Option<usize>
    requires { x < 16 }
    ensures { FirstWritten pair.now.left.now pair.now.term.now table.now x out.old out.new result }
{
    let first = pair.first_of(table, x)?;
    let list = &first.ids[..first.k];
    write_body(&pair.term[first.at..], first.depth, list, out).ok()
}

// Writes the bodies of the variables one after the other, and their lengths, into cleared slices; false where there is no room, and zeros are left.
pub fn write_bodies(
    pair: &Pair,
    table: &[u32; TABLE],
    bodies: &mut [u32],
    lengths: &mut [u32; 16],
) -> bool
    requires { (bodies.old ≡ replicate (length bodies.old) 0) × (lengths.old ≡ replicate 16 0) }
    ensures { BodiesTold pair.now.vars pair.now.left.now pair.now.term.now table.now (length bodies.old) bodies.new lengths.new result }
{
    let mut at = 0;
    for x in 0..pair.vars as usize {
        let Some(n) = write_first(pair, table, x, &mut bodies[at..]) else {
            clear(bodies);
            clear(lengths);
            return false;
        };
        lengths[x] = n as u32;
        at += n;
    }
    true
}
