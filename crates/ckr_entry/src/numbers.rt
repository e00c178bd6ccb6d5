//! Reading the numbers of an entry.
ghost use Rattle.std.specs.Prelude.{◌≡◌, ◌≤◌, ◌^◌, IfOk, nat_lt};
ghost use Rattle.std.specs.Int.{w32};
ghost use Rattle.ckr_fields.specs.Readers.{Gives};
ghost use Rattle.ckr_fields.specs.Fields.{judged_at, between, number_at};
ghost use Rattle.ckr_entry.specs.Numbers.{eight_bytes_at, sixteen_bytes_at};

use ckr_fields::{Fields, ReadError};

/// A number of four bytes from `least` to `most`.
#[tactic(auto, unfolding(ckr_fields::specs::Fields::judged_at))]
pub(crate) fn number(fields: &mut Fields, least: u32, most: u32) -> Result<u32, ReadError>
    ensures read { Gives (λ x. x) (judged_at (between least most) (number_at w32) fields.old) result fields.new }
    ensures range { IfOk result (λ number. number ≤ most) }
{
    let left = fields.left();
    let number = fields.four_bytes()?;
    if least <= number && number <= most {
        Ok(number)
    } else {
        Err(ReadError::Wrong(left))
    }
}

/// A number of eight bytes, the highest first.
#[tactic(auto, unfolding(crate::specs::Numbers::eight_bytes_at))]
fn eight_bytes(fields: &mut Fields) -> Result<u64, ReadError>
    ensures { Gives (λ x. x) (eight_bytes_at fields.old) result fields.new }
{
    let high = fields.four_bytes()?;
    let low = fields.four_bytes()?;
    Ok(u64::from(high) * 0x1_0000_0000 + u64::from(low))
}

/// A number of sixteen bytes, the highest first.
#[tactic(auto, unfolding(crate::specs::Numbers::sixteen_bytes_at))]
fn sixteen_bytes(fields: &mut Fields) -> Result<u128, ReadError>
    ensures { Gives (λ x. x) (sixteen_bytes_at fields.old) result fields.new }
{
    let high = eight_bytes(fields)?;
    let low = eight_bytes(fields)?;
    Ok(u128::from(high) * 0x1_0000_0000_0000_0000 + u128::from(low))
}

/// PRINT's sum, which is less than 10 to the 21st power.
#[tactic(auto, unfolding(ckr_fields::specs::Fields::judged_at))]
pub(crate) fn sum(fields: &mut Fields) -> Result<u128, ReadError>
    ensures { Gives (λ x. x) (judged_at (λ n. nat_lt n (10 ^ 21)) sixteen_bytes_at fields.old) result fields.new }
{
    let left = fields.left();
    let sum = sixteen_bytes(fields)?;
    if sum < 1_000_000_000_000_000_000_000 {
        Ok(sum)
    } else {
        Err(ReadError::Wrong(left))
    }
}
