//! The lane that lines of work are about, and what it is opened on.

use crate::listed_site::{Kind, ListedSite, disk_of};
use crate::one_lane::OneLane;
use crate::words::{
    Words, card, counter, facts, image, jobs, keyset, message, number, octets, reference_text,
};
use anyhow::{Result, anyhow, bail};
use arrayvec::ArrayVec;
use ota_core::CardId;
use site_model::{BareSite, Departure};
use std::alloc::Global;
use std::mem;

/// A lane, or the site that none was opened on; and the disk, the messages and the failing calls of the next site.
#[derive(Drop)]
pub struct Bench {
    alloc: Global,
    lane: Option<OneLane<ListedSite>>,
    refused: Option<ListedSite>,
    disk: Vec<u8>,
    messages: Vec<(CardId, ArrayVec<u8, 140>)>,
    failing: Vec<(Kind, u64)>,
}

fn left_text(alloc: Global, piece: &Departure) -> Result<String> {
    let card = piece.card.0;
    let place = piece.place;
    let reference = reference_text(alloc, piece.reference)?;
    let packet = hex::encode(alloc, piece.packet.as_slice())?;
    Ok(format!(in alloc; " {card}:{reference}:{place}:{packet}")?)
}

impl Bench {
    pub fn new(alloc: Global) -> Bench {
        Bench {
            alloc,
            lane: None,
            refused: None,
            disk: Vec::new(alloc),
            messages: Vec::new(alloc),
            failing: Vec::new(alloc),
        }
    }

    fn lane(&mut self) -> Result<&mut OneLane<ListedSite>> {
        self.lane.as_mut().ok_or(anyhow!("no lane is open"))
    }

    fn fail(&mut self, words: &mut Words<'_>) -> Result<()> {
        let kind = match words.next().unwrap_or("") {
            "look" => Kind::Look,
            "change" => Kind::Change,
            "port" => Kind::Port,
            word => bail!("no kind of calls: {word:?}"),
        };
        self.failing.push((kind, number(words)?))?;
        Ok(())
    }

    fn give(&mut self, words: &mut Words<'_>) -> Result<()> {
        let card = card(words)?;
        self.messages.push((card, message(self.alloc, words)?))?;
        Ok(())
    }

    /// The site for the next lane. Its messages and its failing calls are no longer those of one behind it.
    fn site(&mut self) -> Result<ListedSite> {
        let messages = mem::replace(&mut self.messages, Vec::new(self.alloc));
        let failing = mem::replace(&mut self.failing, Vec::new(self.alloc));
        let disk = disk_of(self.alloc, &self.disk)?;
        let site = BareSite::new(self.alloc, disk).giving(messages);
        Ok(ListedSite::new(self.alloc, site, failing))
    }

    fn open(&mut self) -> Result<String> {
        let site = self.site()?;
        match OneLane::open(self.alloc, site) {
            Ok(lane) => {
                let count = lane.entries().len();
                self.lane = Some(lane);
                Ok(format!(in self.alloc; "{count} entries")?)
            }
            Err((site, error)) => {
                self.refused = Some(site);
                Ok(format!(in self.alloc; "{error:?}")?)
            }
        }
    }

    /// The site of the lane, or that none was opened on.
    fn take_site(&mut self) -> Result<ListedSite> {
        match self.lane.take() {
            Some(lane) => Ok(lane.into_site()),
            None => self.refused.take().ok_or(anyhow!("no lane was open")),
        }
    }

    /// Ends the lane. Gives what the stop leaves of the disk, and the pieces that left.
    fn stop(&mut self, words: &mut Words<'_>) -> Result<String> {
        let image = image(words)?;
        let site = self.take_site()?;
        self.disk = site.stopped(image)?.content().to_vec(self.alloc)?;
        let mut text = hex::encode(self.alloc, &self.disk)?;
        for piece in site.left() {
            text.push_str(&left_text(self.alloc, piece)?)?;
        }
        Ok(text)
    }

    fn prepare(&mut self, task: &str, words: &mut Words<'_>) -> Result<bool> {
        match task {
            "disk" => self.disk = octets(self.alloc, words)?,
            "fail" => self.fail(words)?,
            "give" => self.give(words)?,
            "at" => {
                let moment = number(words)?;
                self.lane()?.at(moment);
            }
            "name" => {
                let name = octets(self.alloc, words)?;
                self.lane()?.name(&name)?;
            }
            _ => return Ok(false),
        }
        Ok(true)
    }

    /// What a call of the lane answers.
    fn call(&mut self, task: &str, words: &mut Words<'_>) -> Result<String> {
        let alloc = self.alloc;
        let lane = self.lane()?;
        let answer = match task {
            "keyset" => {
                let keyset = keyset(words)?;
                lane.open_keyset(keyset, facts(alloc, words)?)
            }
            "reserve" => lane.reserve(&jobs(alloc, words)?)?,
            "send" => lane.reserve_and_send(&jobs(alloc, words)?)?,
            "resend" => {
                let keyset = keyset(words)?;
                lane.resend(keyset, counter(words)?)
            }
            "close" => lane.close_keyset(keyset(words)?),
            _ => bail!("no such task: {task:?}"),
        };
        Ok(format!(in alloc; "{answer:?}")?)
    }

    /// What a line of work gives.
    pub fn answer(&mut self, task: &str, words: &mut Words<'_>) -> Result<String> {
        if self.prepare(task, words)? {
            return Ok(String::from_str(self.alloc, "-")?);
        }
        match task {
            "open" => self.open(),
            "stop" => self.stop(words),
            "entries" => {
                let count = self.lane()?.entries().len();
                Ok(format!(in self.alloc; "{count} entries")?)
            }
            "poll" => {
                let answer = self.lane()?.poll_settle();
                Ok(format!(in self.alloc; "{answer:?}")?)
            }
            _ => self.call(task, words),
        }
    }
}
