// Calls for C and Rust: notices read and written. A category and a text.
ghost use Rattle.std.specs.Prelude.{◌≡◌, drop};
ghost use Rattle.stock_reading.specs.Reading.{notice_at};
ghost use Rattle.stock_notices.specs.Notices.{five_codec};
ghost use Rattle.c_outcomes.specs.Outcomes.{read_outcome};
ghost use Rattle.c_outcomes.specs.Lent.{lent};
ghost use Rattle.c_outcomes.specs.Written.{written_outcome, written_bytes};
ghost use Rattle.c_notices.specs.Notices.{notice_from};

// The answer, and a notice's category and text; the text's length is the frame's without 14.
#[unsafe(no_mangle)]
pub extern "C" fn trivsome_read_notice_numbers(
    line: &[u8],
    at: usize,
    category: &mut u8,
    text: &mut [u8; 60],
) -> u64
    ensures value { result ≡ read_outcome (notice_at (drop at line.now)).answer }
    ensures category_after { category.new ≡ lent 5 (notice_at (drop at line.now)).answer (notice_at (drop at line.now)).notice.category category.old }
    ensures text_after { text.new ≡ lent 5 (notice_at (drop at line.now)).answer (notice_at (drop at line.now)).notice.text text.old }
{
    c_notices::trivsome_read_notice_numbers(line, at, category, text)
}

// A notice of a number, a category and a text, written at the start of a buffer: 0 with the length, 14 or 15.
#[unsafe(no_mangle)]
pub extern "C" fn trivsome_write_notice_numbers(
    seq: u32,
    category: u8,
    text: &[u8],
    buf: &mut [u8],
) -> u64
    ensures value { result ≡ written_outcome five_codec (notice_from seq category text.now) buf.old }
    ensures buf_after { buf.new ≡ written_bytes five_codec (notice_from seq category text.now) buf.old }
{
    c_notices::trivsome_write_notice_numbers(seq, category, text, buf)
}
