//! The messages of the answers that the cards made.

ghost use Rattle.std.specs.Prelude.{◌≡◌, ◌+◌, ◌<◌, ◌≤◌, [], IfOk, Some, length, map, nat_lt, slice_get};
ghost use Rattle.air_sim.specs.Messages.{IsNextOf, KeepsAnswer};

use crate::deliveries::Message;
use arrayvec::ArrayVec;
use ota_core::{CardId, Memory};
use std::alloc::Global;
use std::marker::Model;

/// The messages, each with its card, and in order the next that is to be given.
#[derive(Drop)]
pub(crate) struct MadeMessages {
    made: Vec<(CardId, Message)>,
    next_message: usize,
}

impl Model for MadeMessages {
    ghost use Rattle.std.specs.Prelude.{◌≤◌, length};
    ghost use Rattle.air_sim.specs.Messages.{MessagesValue};

    ghost Value = { MessagesValue };

    ghost view = { λ m. record { items = m.made.items; next = m.next_message } };

    ghost invariant = { λ m. m.next_message ≤ length m.made.items };
}

impl MadeMessages {
    /// None.
    pub(crate) fn new(alloc: Global) -> MadeMessages
        ensures { result ≡ record { items = []; next = 0 } }
    {
        MadeMessages {
            made: Vec::new(alloc),
            next_message: 0,
        }
    }

    /// How many they are.
    pub(crate) fn count(&self) -> usize
        ensures { result ≡ length self.now.items }
    {
        self.made.len()
    }

    /// Whether one is left to be given.
    pub(crate) fn has_next(&self) -> bool
        ensures next { result ≡ nat_lt self.now.next (length self.now.items) }
        ensures within { self.now.next ≤ length self.now.items }
    {
        self.next_message < self.made.len()
    }

    /// The position of the next that is to be given, where one is left.
    pub(crate) fn take_next(&mut self) -> Option<u64>
        ensures { IsNextOf self.old self.new result }
    {
        if !self.has_next() {
            return None;
        }
        let position = self.next_message;
        self.next_message += 1;
        Some(position as u64)
    }

    /// The message at this position, with its card.
    pub(crate) fn message(&self, position: u64) -> (CardId, Message)
        requires there { position < length self.now.items }
        ensures { slice_get self.now.items position ≡ Some result }
    {
        let (card, message) = &self.made[position as usize];
        (*card, copy_of(message))
    }

    /// Adds the messages of a card's answer, all of them or none.
    pub(crate) fn add(
        &mut self,
        alloc: Global,
        card: CardId,
        answer: Vec<Message>,
    ) -> Result<(), Memory>
        ensures { KeepsAnswer self.old self.new card answer.items result }
    {
        let mut messages = with_card(alloc, card, answer)?;
        self.made.append(&mut messages)?;
        Ok(())
    }
}

/// Each message with its card.
fn with_card(
    alloc: Global,
    card: CardId,
    answer: Vec<Message>,
) -> Result<Vec<(CardId, Message)>, Memory>
    ensures { IfOk result (λ messages. messages.items ≡ map (λ message. (card, message)) answer.items) }
{
    let mut messages = Vec::new(alloc);
    for message in answer {
        messages.push((card, message))?;
    }
    Ok(messages)
}

/// The same message once more.
fn copy_of(message: &Message) -> Message
    ensures { result ≡ message.now }
{
    let mut copy = ArrayVec::new();
    copy.try_extend_from_slice(message.as_slice()).unwrap();
    copy
}
