//! Reading fields from the front of bytes.
ghost use Rattle.std.specs.Prelude.{◌≡◌, ◌≤◌, ◌==◌, length, IfOk, if◌then◌else◌};
ghost use Rattle.std.specs.Int.{w16, w32};
ghost use Rattle.ckr_fields.specs.Readers.{Gives};
ghost use Rattle.ckr_fields.specs.Fields.{byte_at, number_at, judged_at, between, bytes_at, name8, ds_name, check_id, starts_with_zero, optional_at, record_bytes, flag_at, code_at, blocks_at};

use crate::error::ReadError;
use ckr_base::{ByteList, CheckId, Code, DsName, Name8, NoMemory, Rec};
use std::alloc::Global;
use std::marker::Model;

/// The bytes that are still to be read.
#[derive(Drop)]
pub struct Fields<'a> {
    rest: &'a [u8],
}

impl<'a> Model for Fields<'a> {
    ghost use Rattle.std.specs.Prelude.{ℕ, List};

    ghost Value = { List ℕ };

    ghost view = { λ fields. fields.rest.now };
}

impl<'a> Fields<'a> {
    /// Nothing of these bytes is read yet.
    pub fn new(bytes: &'a [u8]) -> Self
        ensures { result ≡ bytes.now }
    {
        Fields { rest: bytes }
    }

    /// A byte.
    #[tactic(auto, unfolding(crate::specs::Fields::byte_at))]
    pub fn byte(&mut self) -> Result<u8, ReadError>
        ensures { Gives (λ x. x) (byte_at self.old) result self.new }
    {
        match self.rest {
            [] => Err(ReadError::Wrong(0)),
            [value, rest @ ..] => {
                self.rest = rest;
                Ok(*value)
            }
        }
    }

    /// A number of two bytes, the highest first.
    #[tactic(auto, unfolding(crate::specs::Fields::number_at))]
    pub fn two_bytes(&mut self) -> Result<u16, ReadError>
        ensures { Gives (λ x. x) (number_at w16 self.old) result self.new }
    {
        if self.rest.len() < 2 {
            return Err(ReadError::Wrong(0));
        }
        let (front, rest) = self.rest.split_at(2);
        self.rest = rest;
        Ok(u16::from_be_bytes([front[0], front[1]]))
    }

    /// A number of four bytes, the highest first.
    #[tactic(auto, unfolding(crate::specs::Fields::number_at))]
    pub fn four_bytes(&mut self) -> Result<u32, ReadError>
        ensures { Gives (λ x. x) (number_at w32 self.old) result self.new }
    {
        if self.rest.len() < 4 {
            return Err(ReadError::Wrong(0));
        }
        let (front, rest) = self.rest.split_at(4);
        self.rest = rest;
        Ok(u32::from_be_bytes([front[0], front[1], front[2], front[3]]))
    }

    /// A number of one byte from `least` to `most`.
    #[tactic(auto, unfolding(crate::specs::Fields::judged_at))]
    pub fn byte_between(&mut self, least: u8, most: u8) -> Result<u8, ReadError>
        ensures read { Gives (λ x. x) (judged_at (between least most) byte_at self.old) result self.new }
        ensures range { IfOk result (λ number. number ≤ most) }
    {
        let left = self.rest.len();
        let value = self.byte()?;
        if least <= value && value <= most {
            Ok(value)
        } else {
            Err(ReadError::Wrong(left))
        }
    }

    /// So many bytes.
    #[tactic(auto, unfolding(crate::specs::Fields::bytes_at))]
    pub fn bytes(&mut self, size: usize) -> Result<&'a [u8], ReadError>
        ensures read { Gives (λ x. x.now) (bytes_at size self.old) result self.new }
        ensures size { IfOk result (λ bytes. length bytes.now ≡ size) }
    {
        if self.rest.len() < size {
            return Err(ReadError::Wrong(0));
        }
        let (front, rest) = self.rest.split_at(size);
        self.rest = rest;
        Ok(front)
    }

    /// The name of a job, a step or a DD.
    #[tactic(auto, unfolding(crate::specs::Fields::text_at))]
    pub fn name8(&mut self) -> Result<Name8, ReadError>
        ensures { Gives (λ x. x) (name8.read self.old) result self.new }
    {
        let left = self.rest.len();
        let size = self.byte_between(1, 8)?;
        let text = self.bytes(size as usize)?;
        match Name8::read(text) {
            Some(name) => Ok(name),
            None => Err(ReadError::Wrong(left)),
        }
    }

    /// The name of a data set.
    #[tactic(auto, unfolding(crate::specs::Fields::text_at))]
    pub fn ds_name(&mut self) -> Result<DsName, ReadError>
        ensures { Gives (λ x. x) (ds_name.read self.old) result self.new }
    {
        let left = self.rest.len();
        let size = self.byte_between(1, 44)?;
        let text = self.bytes(size as usize)?;
        match DsName::read(text) {
            Some(name) => Ok(name),
            None => Err(ReadError::Wrong(left)),
        }
    }

    /// The identifier of a checkpoint.
    #[tactic(auto, unfolding(crate::specs::Fields::text_at))]
    pub fn check_id(&mut self) -> Result<CheckId, ReadError>
        ensures { Gives (λ x. x) (check_id.read self.old) result self.new }
    {
        let left = self.rest.len();
        let size = self.byte_between(1, 16)?;
        let text = self.bytes(size as usize)?;
        match CheckId::read(text) {
            Some(id) => Ok(id),
            None => Err(ReadError::Wrong(left)),
        }
    }

    /// Whether a length of 0 comes next.
    fn starts_with_zero(&self) -> bool
        ensures { result ≡ starts_with_zero self.now }
    {
        match self.rest {
            [] => false,
            [first, ..] => *first == 0,
        }
    }

    /// The name of a data set, or a length of 0 where there is none.
    #[tactic(auto, unfolding(crate::specs::Fields::optional_at))]
    pub fn optional_ds_name(&mut self) -> Result<Option<DsName>, ReadError>
        ensures { Gives (λ x. x) (optional_at ds_name.read self.old) result self.new }
    {
        if self.starts_with_zero() {
            self.rest = &self.rest[1..];
            return Ok(None);
        }
        let name = self.ds_name()?;
        Ok(Some(name))
    }

    /// The identifier of a checkpoint, or a length of 0 where there is none.
    #[tactic(auto, unfolding(crate::specs::Fields::optional_at))]
    pub fn optional_check_id(&mut self) -> Result<Option<CheckId>, ReadError>
        ensures { Gives (λ x. x) (optional_at check_id.read self.old) result self.new }
    {
        if self.starts_with_zero() {
            self.rest = &self.rest[1..];
            return Ok(None);
        }
        let id = self.check_id()?;
        Ok(Some(id))
    }

    /// The bytes of a record, behind a length of two bytes that is at most 256.
    #[tactic(auto, unfolding(crate::specs::Fields::text_at, crate::specs::Fields::judged_at))]
    pub fn record_bytes(&mut self) -> Result<Rec, ReadError>
        ensures { Gives (λ x. x) (record_bytes.read self.old) result self.new }
    {
        let left = self.rest.len();
        let size = self.two_bytes()?;
        if size > 256 {
            return Err(ReadError::Wrong(left));
        }
        let bytes = self.bytes(size as usize)?;
        Ok(Rec::of(bytes))
    }

    /// A flag: a byte that is 0 or 1.
    #[tactic(auto, unfolding(crate::specs::Fields::flag_at))]
    pub fn flag(&mut self) -> Result<bool, ReadError>
        ensures { Gives (λ x. x) (flag_at self.old) result self.new }
    {
        let left = self.rest.len();
        match self.byte()? {
            0 => Ok(false),
            1 => Ok(true),
            _ => Err(ReadError::Wrong(left)),
        }
    }

    /// A completion code: `S` or `U`, and a number of two bytes that is at most 4095.
    #[tactic(auto, unfolding(crate::specs::Fields::code_at))]
    pub fn code(&mut self) -> Result<Code, ReadError>
        ensures { Gives (λ x. x) (code_at self.old) result self.new }
    {
        let left = self.rest.len();
        let letter = self.byte()?;
        let number = self.two_bytes()?;
        if number > 4095 {
            return Err(ReadError::Wrong(left));
        }
        match letter {
            b'S' => Ok(Code::System(number)),
            b'U' => Ok(Code::User(number)),
            _ => Err(ReadError::Wrong(left)),
        }
    }

    /// Blocks of so many bytes each, behind their count of four bytes.
    pub fn blocks(&mut self, alloc: Global, size: u8) -> Result<ByteList, ReadError>
        ensures { Gives (λ x. x) (blocks_at size self.old) result self.new }
    {
        let count = self.four_bytes()?;
        let bytes = self.bytes(size as usize * count as usize)?;
        Ok(byte_list(alloc, bytes)?)
    }

    /// The last field is read. It fails where bytes are left.
    pub fn finish(&self) -> Result<(), ReadError>
        ensures { result ≡ (if length self.now == 0 then Ok tt else Err (ReadError.Wrong (length self.now))) }
    {
        match self.rest.len() {
            0 => Ok(()),
            left => Err(ReadError::Wrong(left)),
        }
    }

    /// How many bytes are still to be read.
    pub fn left(&self) -> usize
        ensures { result ≡ length self.now }
    {
        self.rest.len()
    }
}

/// A list of these bytes.
fn byte_list(alloc: Global, bytes: &[u8]) -> Result<ByteList, NoMemory>
    ensures { IfOk result (λ list. list ≡ bytes.now) }
{
    let mut list = ByteList::new(alloc);
    list.extend(bytes)?;
    Ok(list)
}
