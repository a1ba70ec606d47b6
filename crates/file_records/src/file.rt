//! One file, and what a command does to it.

ghost use Rattle.std.specs.Prelude.{◌≡◌, ◌+◌, ◌^◌, ◌<◌, ◌≤◌, ◌↔◌, IsTrue, IfOk, option_copied, length};
ghost use Rattle.file_records.specs.Made.{Gives, Makes, MakesAndGives};

use crate::contents::Contents;
use crate::records::Records;
use crate::sum::sum;
use apdu_codec::Refusal;
use arrayvec::ArrayVec;

/// A file of the card.
#[derive(Drop)]
pub struct File {
    /// Whether it may be managed remotely.
    pub remote: bool,
    /// Whether it is active; a DF always is.
    pub active: bool,
    /// What it holds.
    pub contents: Contents,
}

impl File {
    ghost use Rattle.file_records.specs.File.{is_folder, octets_held_by, usable, octets_of, records_of, binary_read, binary_written, record_read, record_written, record_pushed, records_found, increased, marked, Keeps};

    /// Whether it is the MF or a DF.
    pub fn is_folder(&self) -> bool
        ensures { result ≡ is_folder self.now }
    {
        matches!(&self.contents, Contents::Folder)
    }

    /// The octets, if it is a transparent EF.
    pub fn octets_held(&self) -> Option<&[u8]>
        ensures { option_copied result ≡ octets_held_by self.now }
    {
        match &self.contents {
            Contents::Transparent(binary) => Some(binary.as_slice()),
            _ => None,
        }
    }

    /// Whether a command may use the file: it may be managed remotely, and is active.
    fn usable(&self) -> Result<(), Refusal>
        ensures { result ≡ usable self.now }
    {
        if !self.remote {
            return Err(Refusal::NotRemote);
        }
        if !self.active {
            return Err(Refusal::ConditionsNotMet);
        }
        Ok(())
    }

    /// The octets of a transparent EF that may be used.
    fn octets(&self) -> Result<&[u8], Refusal>
        ensures { Gives (λ octets. octets.now) result (octets_of self.now) }
    {
        match &self.contents {
            Contents::Transparent(binary) => {
                self.usable()?;
                Ok(binary.as_slice())
            }
            _ => Err(Refusal::WrongKind),
        }
    }

    /// READ BINARY: the octets from an offset on, as many as are wanted; 0 wants all, at most 256.
    ///
    /// ETSI TS 102 221, 11.1.3.
    pub fn read_binary(&self, offset: usize, wanted: u8) -> Result<&[u8], Refusal>
        requires { offset < 2 ^ 16 }
        ensures read { Gives (λ octets. octets.now) result (binary_read self.now offset wanted) }
        ensures short { IfOk result (λ octets. length octets.now ≤ 256) }
    {
        let octets = self.octets()?;
        if octets.len() <= offset {
            return Err(Refusal::WrongOffset);
        }
        let rest = &octets[offset..];
        let wanted = usize::from(wanted);
        if rest.len() < wanted {
            return Err(Refusal::WrongOffset);
        }
        let most = if wanted == 0 { 256 } else { wanted };
        Ok(&rest[..most.min(rest.len())])
    }

    /// UPDATE BINARY: writes octets from an offset on.
    ///
    /// ETSI TS 102 221, 11.1.4.
    pub fn write_binary(&mut self, offset: usize, new: &[u8]) -> Result<(), Refusal>
        requires { offset < 2 ^ 16 }
        ensures made { Makes self.old self.new result (binary_written self.old offset new.now) }
        ensures keeps { Keeps self.old self.new }
    {
        let usable = self.usable();
        match &mut self.contents {
            Contents::Transparent(binary) => {
                usable?;
                if !fits(offset, new, binary.as_slice()) {
                    return Err(Refusal::WrongOffset);
                }
                binary.write(offset, new);
                Ok(())
            }
            _ => Err(Refusal::WrongKind),
        }
    }

    /// The records of a linear or cyclic EF that may be used.
    fn records(&self) -> Result<&Records, Refusal>
        ensures { Gives (λ records. records.now) result (records_of self.now) }
    {
        match &self.contents {
            Contents::Linear(records) | Contents::Cyclic(records) => {
                self.usable()?;
                Ok(records)
            }
            _ => Err(Refusal::WrongKind),
        }
    }

    /// READ RECORD: the record of a number, whole; its length is wanted, or 0.
    ///
    /// ETSI TS 102 221, 11.1.5.
    pub fn read_record(&self, number: u8, wanted: u8) -> Result<&[u8], Refusal>
        ensures read { Gives (λ row. row.now) result (record_read self.now number wanted) }
        ensures short { IfOk result (λ row. length row.now ≤ 256) }
    {
        let records = self.records()?;
        let width = records.width();
        if number == 0 || number > records.count() {
            return Err(Refusal::RecordNotFound);
        }
        if wanted != 0 && wanted != width {
            return Err(Refusal::WrongLength);
        }
        Ok(records.row(number))
    }

    /// UPDATE RECORD of a linear EF: writes the record of a number.
    ///
    /// ETSI TS 102 221, 11.1.6.
    pub fn write_record(&mut self, number: u8, new: &[u8]) -> Result<(), Refusal>
        ensures made { Makes self.old self.new result (record_written self.old number new.now) }
        ensures keeps { Keeps self.old self.new }
    {
        let usable = self.usable();
        match &mut self.contents {
            Contents::Linear(records) => {
                usable?;
                if number == 0 || number > records.count() {
                    return Err(Refusal::RecordNotFound);
                }
                if new.len() != usize::from(records.width()) {
                    return Err(Refusal::WrongLength);
                }
                records.set_row(number, new);
                Ok(())
            }
            _ => Err(Refusal::WrongKind),
        }
    }

    /// UPDATE RECORD of a cyclic EF: a new record 1 takes the place of the oldest one.
    ///
    /// ETSI TS 102 221, 11.1.6.
    pub fn push_record(&mut self, new: &[u8]) -> Result<(), Refusal>
        ensures made { Makes self.old self.new result (record_pushed self.old new.now) }
        ensures keeps { Keeps self.old self.new }
    {
        let usable = self.usable();
        match &mut self.contents {
            Contents::Cyclic(records) => {
                usable?;
                if new.len() != usize::from(records.width()) {
                    return Err(Refusal::WrongLength);
                }
                records.push(new);
                Ok(())
            }
            _ => Err(Refusal::WrongKind),
        }
    }

    /// SEARCH RECORD: the numbers of the records that begin with a pattern, from a number on.
    ///
    /// ETSI TS 102 221, 11.1.7; to compare the beginning of a record is this card's own.
    pub fn search_record(&self, from: u8, pattern: &[u8]) -> Result<ArrayVec<u8, 256>, Refusal>
        ensures { Gives (λ numbers. numbers.items) result (records_found self.now from pattern.now) }
    {
        let records = self.records()?;
        if from == 0 || from > records.count() {
            return Err(Refusal::RecordNotFound);
        }
        if pattern.len() > usize::from(records.width()) {
            return Err(Refusal::WrongLength);
        }
        let numbers = records.numbers_with(from, pattern);
        if numbers.is_empty() {
            return Err(Refusal::RecordNotFound);
        }
        Ok(numbers)
    }

    /// INCREASE: adds a number to record 1 of a cyclic EF, and makes the sum the new record 1; it gives
    /// the octets of the sum.
    ///
    /// ETSI TS 102 221, 11.1.8.
    pub fn increase(&mut self, by: u32) -> Result<ArrayVec<u8, 16>, Refusal>
        requires { by < 2 ^ 24 }
        ensures made { MakesAndGives (λ row. row.items) self.old self.new result (increased self.old by) }
        ensures keeps { Keeps self.old self.new }
    {
        let usable = self.usable();
        match &mut self.contents {
            Contents::Cyclic(records) => {
                let width = records.width();
                if width < 3 || width > 16 {
                    return Err(Refusal::WrongKind);
                }
                usable?;
                match sum(records.first(), by) {
                    Some(row) => {
                        records.push(&row);
                        Ok(row)
                    }
                    None => Err(Refusal::GreatestReached),
                }
            }
            _ => Err(Refusal::WrongKind),
        }
    }

    /// ACTIVATE and DEACTIVATE.
    ///
    /// ETSI TS 102 222, 6.10 and 6.11.
    pub fn mark(&mut self, active: bool) -> Result<(), Refusal>
        ensures made { Makes self.old self.new result (marked active self.old) }
        ensures keeps { Keeps self.old self.new }
    {
        if !self.remote {
            return Err(Refusal::NotRemote);
        }
        if self.active == active {
            return Err(Refusal::ConditionsNotMet);
        }
        self.active = active;
        Ok(())
    }
}

/// Whether octets that are written from an offset on end within others.
fn fits(offset: usize, new: &[u8], octets: &[u8]) -> bool
    requires { offset < 2 ^ 16 }
    ensures { IsTrue result ↔ (offset + length new.now ≤ length octets.now) }
{
    offset + new.len() <= octets.len()
}

#[cfg(test)]
mod tests;
