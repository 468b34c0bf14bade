// Exact sums of one column and of two.
ghost use Rattle.std.specs.Prelude.{◌≡◌};
ghost use Rattle.clauses.specs.Slices.{was, left};
ghost use Rattle.with_capacities.specs.Answer.{lent_tables};
ghost use Rattle.row_reader.specs.runs.Answers.{refusal};
ghost use Rattle.aggregates.specs.Report.{mean_report, ratio_report};
ghost use Rattle.lafkuno.specs.Sums.{flag_of, mean_words, ratio_words, mean_ground, mean_numbers, ratio_ground, ratio_numbers};

use crate::reading;
use aggregates::{MeanReport, RatioReport};

// The five numbers of a mean: the count, the sum as two's complement, 1 for minus, and the magnitudes.
fn mean_words(r: MeanReport) -> [u64; 5]
    ensures { result ≡ mean_words r }
{
    [
        r.count,
        reading::whole_number(r.sum),
        flag(r.minus),
        r.over,
        r.under,
    ]
}

// The six numbers of a ratio: the count, both totals as two's complement, 1 for minus, and the magnitudes.
fn ratio_words(r: RatioReport) -> [u64; 6]
    ensures { result ≡ ratio_words r }
{
    [
        r.count,
        reading::whole_number(r.first),
        reading::whole_number(r.second),
        flag(r.minus),
        r.over,
        r.under,
    ]
}

pub fn flag(b: bool) -> u64
    ensures { result ≡ flag_of b }
{
    u64::from(b)
}

// Count, sum and mean of the rows start .. end - 1 of a column: 0 and the five numbers, or the ground; 14, last, where the answer has not
// five numbers. The answer is left as it was where the call is refused.
#[unsafe(no_mangle)]
pub extern "C" fn lafkuno_mean(
    formats: &[u8],
    schema: &[u32],
    lengths: &[u64],
    places: &[u64],
    buffers: &[u64],
    body: &[u8],
    first: u32,
    n: u32,
    start: u64,
    end: u64,
    answer: &mut [u64],
) -> u8
    ensures value { result ≡ mean_ground (mean_report (was formats) (was schema) (lent_tables lengths places buffers body) first n start end) answer.old }
    ensures answer_value { answer.new ≡ mean_numbers (mean_report (was formats) (was schema) (lent_tables lengths places buffers body) first n start end) answer.old }
{
    match aggregates::mean(
        formats, schema, lengths, places, buffers, body, first, n, start, end,
    ) {
        Ok(report) => {
            if answer.len() != 5 {
                return 14;
            }
            let words = mean_words(report);
            reading::copy_words(answer, &words);
            0
        }
        Err(refusal) => refusal,
    }
}

// Total over total of the rows start .. end - 1 in which two columns both have a number: 0 and the six numbers, or the ground; 14, last,
// where the answer has not six numbers. The answer is left as it was where the call is refused.
#[unsafe(no_mangle)]
pub extern "C" fn lafkuno_ratio(
    formats: &[u8],
    schema: &[u32],
    lengths: &[u64],
    places: &[u64],
    buffers: &[u64],
    body: &[u8],
    first_a: u32,
    n_a: u32,
    first_b: u32,
    n_b: u32,
    start: u64,
    end: u64,
    answer: &mut [u64],
) -> u8
    ensures value { result ≡ ratio_ground (ratio_report (was formats) (was schema) (lent_tables lengths places buffers body) first_a n_a first_b n_b start end) answer.old }
    ensures answer_value { answer.new ≡ ratio_numbers (ratio_report (was formats) (was schema) (lent_tables lengths places buffers body) first_a n_a first_b n_b start end) answer.old }
{
    match aggregates::ratio(
        formats, schema, lengths, places, buffers, body, first_a, n_a, first_b, n_b, start, end,
    ) {
        Ok(report) => {
            if answer.len() != 6 {
                return 14;
            }
            let words = ratio_words(report);
            reading::copy_words(answer, &words);
            0
        }
        Err(refusal) => refusal,
    }
}
