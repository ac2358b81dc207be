// Open, add and close: every decision comes before the first byte is written.
ghost use Rattle.std.specs.Prelude.{◌≡◌, ◌<◌, length};
ghost use Rattle.writer.specs.Writing.{passed, open_bytes, open_gives, open_leaves, add_gives, add_leaves, close_gives, close_leaves};

use crate::deciding::{judge_add, judge_close, judge_open};
use crate::heads::Texts;
use crate::puts::put_record;
use crate::types::{WriteRefusal, Writer};
use book::types::Settings;
use prelude::refusals::Fault;
use prelude::slices::copy_in;
use records::types::Record;

// What was judged; a refusal comes with the state as it was.
#[tactic(auto, unfolding(crate::specs::Writing::passed))]
fn passed(judged: Result<(), Fault>, w: Writer) -> Result<(), WriteRefusal>
    ensures { result ≡ passed judged w }
{
    judged.map_err(|fault| WriteRefusal {
        refusal: fault.at(0),
        writer: w,
    })
}

fn open_bytes(s: Settings) -> [u8; 12]
    requires { s.lead < 256 }
    ensures { result ≡ open_bytes s }
{
    let [start_low, start_high] = s.start.0.to_le_bytes();
    let [granularity_low, granularity_high] = s.granularity.to_le_bytes();
    [
        0xFF,
        0xFF,
        0x01,
        0x00,
        0x01,
        start_low,
        start_high,
        granularity_low,
        granularity_high,
        u8::from(s.alarm),
        s.lead as u8,
        u8::from(s.carry_forward),
    ]
}

// Begins a book: identification and settings.
pub fn open_book(s: Settings, buf: &mut [u8]) -> Result<Writer, WriteRefusal>
    ensures gives { result ≡ open_gives s (length buf.old) }
    ensures leaves { buf.new ≡ open_leaves s buf.old }
{
    let unopened = Writer {
        used: 0,
        closed: false,
    };
    passed(judge_open(s, buf.len()), unopened)?;
    let used = copy_in(buf, 0, &open_bytes(s));
    Ok(Writer {
        used,
        closed: false,
    })
}

// Adds a record with its text and its note.
pub fn add_record(
    w: Writer,
    buf: &mut [u8],
    r: Record,
    text: &[u8],
    note: &[u8],
) -> Result<Writer, WriteRefusal>
    ensures gives { result ≡ add_gives w (length buf.old) r text.now note.now }
    ensures leaves { buf.new ≡ add_leaves w buf.old r text.now note.now }
{
    passed(judge_add(w, buf.len(), r, text, note), w)?;
    let used = put_record(buf, w.used, r, Texts { text, note });
    Ok(Writer {
        used,
        closed: false,
    })
}

// Ends the book: the bytes used are then the file's length.
pub fn close_book(w: Writer, buf: &mut [u8]) -> Result<Writer, WriteRefusal>
    ensures gives { result ≡ close_gives w (length buf.old) }
    ensures leaves { buf.new ≡ close_leaves w buf.old }
{
    passed(judge_close(w, buf.len()), w)?;
    let used = copy_in(buf, w.used, &[0x32, 0x00, 0x00]);
    Ok(Writer { used, closed: true })
}
