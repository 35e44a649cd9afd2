// The reader and the bundle called as a host would, and what is promised as the contract of the calls: the demands and the smallest bundle,
// of the call itself; and beside them all the promises, so that none is without its proof. The functions add nothing to what they call.
#![tactic(auto)]

ghost use Rattle.promises.specs.Apart.{TwoStreams};
ghost use Rattle.promises.specs.Demands.{call, OneCall, TwoCalls};
ghost use Rattle.promises.specs.Promises.{Promises};
ghost use Rattle.promises.specs.SmallestCalls.{cut, CutOnce};

use bundle::bundle;
use promises::Both;
use reader::read;
use rules::{ByteLength, NoBundle, Report};

// Reads a stream by a table. Demands 1 and 2, and whatever else is promised.
pub fn read_once(table: &[u8], stream: &[u8], list: &mut [u64]) -> Report
    ensures one_call { OneCall table.now stream.now (call result list.old list.new) }
    ensures promises { Promises }
{
    read(table, stream, list)
}

// Reads a stream by two tables. Demand 3, where the second table is what stays of the first when classes are left out; and what less room
// does, where it is the same.
pub fn read_both(
    table: &[u8],
    short: &[u8],
    stream: &[u8],
    list: &mut [u64],
    other: &mut [u64],
) -> Both
    ensures { TwoCalls table.now short.now stream.now
        (call result.first list.old list.new)
        (call result.second other.old other.new) }
{
    let first = read(table, stream, list);
    let second = read(short, stream, other);
    Both { first, second }
}

// Reads two streams by a table. What a removed packet does, where the second stream is the first without one of its packets.
pub fn read_without(
    table: &[u8],
    stream: &[u8],
    shorter: &[u8],
    list: &mut [u64],
    other: &mut [u64],
) -> Both
    ensures { TwoStreams table.now stream.now shorter.now
        (call result.first list.old list.new)
        (call result.second other.old other.new) }
{
    let whole = read(table, stream, list);
    let rest = read(table, shorter, other);
    Both {
        first: whole,
        second: rest,
    }
}

// Cuts a table to what some streams need. What the smallest bundle is, said of calls of `read` with the same streams and lists.
pub fn cut_once(
    table: &[u8],
    streams: &[u8],
    lengths: &[u64],
    rooms: &[u64],
    list: &mut [u64],
    out: &mut [u8],
) -> Result<ByteLength, NoBundle>
    ensures { CutOnce table.now streams.now lengths.now rooms.now
        (cut result list.old list.new out.old out.new) }
{
    bundle(table, streams, lengths, rooms, list, out)
}
