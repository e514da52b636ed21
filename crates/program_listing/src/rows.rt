// The rows of a listing as text.
ghost use Rattle.printing.specs.Text.{Puts};
ghost use Rattle.program_listing.specs.Listing.{header, mark, frame_text, row_text, total_text};

use answers::Answer;
use lines::exchanges::Exchange;
use printing::{put, put_all, put_field, put_number};
use walk::rows::Row;
use walk::tally::Tally;

pub(crate) fn put_header(out: &mut [u8], at: usize) -> usize
    ensures { Puts header at out.old result out.new }
{
    put_all(out, at, b"at,answer,bytes,format,seq\n")
}

// What stands before a format's number.
fn put_mark(out: &mut [u8], at: usize, exchange: Exchange) -> usize
    ensures { Puts (mark exchange) at out.old result out.new }
{
    match exchange {
        Exchange::Stock => at,
        Exchange::Derivatives => put_all(out, at, b"I0"),
    }
}

// Format and number of an accepted frame, or dashes.
fn put_frame(out: &mut [u8], at: usize, exchange: Exchange, answer: Answer) -> usize
    ensures { Puts (frame_text exchange answer) at out.old result out.new }
{
    match answer {
        Answer::Accepted(f) => {
            let to = put_mark(out, at, exchange);
            let to = put_field(out, to, f.format as u64, b',');
            put_number(out, to, f.seq as u64)
        }
        _ => put_all(out, at, b"-,-"),
    }
}

pub(crate) fn put_row(out: &mut [u8], at: usize, exchange: Exchange, row: Row) -> usize
    ensures { Puts (row_text exchange row) at out.old result out.new }
{
    let answer = row.answer;
    let n = answer.number();
    let to = put_field(out, at, row.at, b',');
    let to = put_field(out, to, n as u64, b',');
    let to = put_field(out, to, row.bytes, b',');
    let to = put_frame(out, to, exchange, answer);
    put(out, to, b'\n')
}

pub(crate) fn put_total(out: &mut [u8], at: usize, t: Tally) -> usize
    ensures { Puts (total_text t) at out.old result out.new }
{
    let to = put_all(out, at, b"total,");
    let to = put_field(out, to, t.accepted, b',');
    let to = put_field(out, to, t.refused, b',');
    put_field(out, to, t.skipped, b'\n')
}
