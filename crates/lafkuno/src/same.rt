// Whether two rows read the same.
ghost use Rattle.std.specs.Prelude.{◌≡◌};
ghost use Rattle.clauses.specs.Slices.{was, left};
ghost use Rattle.with_capacities.specs.Answer.{lent_tables};
ghost use Rattle.row_reader.specs.row_pair.Same.{same_row};
ghost use Rattle.lafkuno.specs.Same.{same_ground, same_numbers};

use crate::means;
use row_reader::row_pair;

const WRONG_SIZE: u8 = 14;

// Whether row `row_a` of one column of numbers and row `row_b` of another read the same: 0 and the answer's one number, 1 where they do and 0
// where not, or the ground; 14, last, where the answer has not one number. The answer is left as it was where the call is refused.
#[unsafe(no_mangle)]
pub extern "C" fn lafkuno_same_row(
    formats: &[u8],
    schema: &[u32],
    lengths: &[u64],
    places: &[u64],
    buffers: &[u64],
    body: &[u8],
    first_a: u32,
    n_a: u32,
    first_b: u32,
    n_b: u32,
    row_a: u64,
    row_b: u64,
    answer: &mut [u64],
) -> u8
    ensures value { result ≡ same_ground (same_row (was formats) (was schema) (lent_tables lengths places buffers body) first_a n_a first_b n_b row_a row_b) answer.old }
    ensures answer_value { answer.new ≡ same_numbers (same_row (was formats) (was schema) (lent_tables lengths places buffers body) first_a n_a first_b n_b row_a row_b) answer.old }
{
    match row_pair::same_row(
        formats, schema, lengths, places, buffers, body, first_a, n_a, first_b, n_b, row_a, row_b,
    ) {
        Ok(same) => {
            if answer.len() != 1 {
                return WRONG_SIZE;
            }
            answer[0] = means::flag(same);
            0
        }
        Err(refusal) => refusal,
    }
}
