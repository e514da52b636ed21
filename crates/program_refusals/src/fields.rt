// Which rule a time or another field of a frame of the stock exchange breaks, by its format. Each says all that can be the matter.

// The formats as their byte has them; the fourth is nineteen.
const FIVE: u8 = 0x05;

const SIX: u8 = 0x06;

const TWELVE: u8 = 0x12;

// Of the answer 12; format five has no time.
pub(crate) fn time_why(format: u8) -> &'static str {
    match format {
        SIX =>
            "the time is no time of day, or twelve nines stand without the code 000000, or that code without them",
        TWELVE =>
            "the time of a slot is no time of day, or twelve nines stand in a slot behind the count",
        _ =>
            "the halt time is no time of day, or the resume time is neither a time of day nor 999999",
    }
}

// Of the answer 13.
pub(crate) fn field_why(format: u8) -> &'static str {
    match format {
        FIVE => "the category is not 00, 09, 90 or 99",
        SIX => "a code byte is not 32 to 126",
        TWELVE => {
            "the count is not 1 to 10, a code byte is not 32 to 126, or a slot behind the count is not six spaces and zeros"
        }
        _ => {
            "the state is not C or I, a code byte is not 32 to 126, or the code of a round's end is not six digits"
        }
    }
}
