//! A campaign on one card: each job is reserved, leaves in one piece, is run, answered and settled.

use anyhow::{Result, anyhow, ensure};
use ota_core::{
    CardFacts, CardId, Counter, Entry, JobId, KeyBytes, KeysetFacts, KeysetId, KeysetList, Mode,
    Octets, Tar,
};
use std::alloc::Global;
use std::time::CpuClock;
use world_core::{Batch, CardStep, Event, Pieces, World};

const CARD: CardId = CardId(8901);

const RFM: Tar = Tar([0xb0, 0x00, 0x10]);

/// The compact response of three commands.
const ANSWER: [u8; 3] = [0x03, 0x90, 0x00];

fn keyset() -> KeysetId {
    KeysetId { card: CARD, kvn: 1 }
}

fn facts() -> Result<KeysetFacts> {
    let key = KeyBytes::new(&[0x2b; 16])?;
    Ok(KeysetFacts {
        base: Counter(0),
        mode: Mode::Higher,
        ciphered: true,
        kic: key,
        kid: key,
    })
}

fn new_world(alloc: Global) -> Result<World> {
    let mut keysets = KeysetList::new(alloc);
    keysets.push(1, facts()?)?;
    let card = CardFacts {
        card: CARD,
        buffer: 1024,
        rfm: RFM,
        ram: Tar([0, 0, 0]),
        keysets,
        wide: false,
    };
    Ok(World::new(alloc, vec![in alloc; card]?)?)
}

/// The events of a job, numbered from 1. It has the reservation and the answer at its place among the jobs, from 0.
fn job_events(alloc: Global, job: u32) -> Result<Vec<Event>> {
    let counter = Counter(u64::from(job));
    let place = u64::from(job).saturating_sub(1);
    let reserve = Entry::Reserve {
        by: 1,
        moment: 0,
        keyset: keyset(),
        counter,
        job: JobId { campaign: 7, job },
        tar: RFM,
        name: Octets::from_slice(alloc, &[])?,
        body: Octets::from_slice(alloc, &[0x00; 22])?,
    };
    let done = Entry::Done {
        by: 1,
        moment: 0,
        keyset: keyset(),
        counter,
        answer: Octets::from_slice(alloc, &ANSWER)?,
    };
    let step = CardStep::Took {
        executed: 3,
        finished: true,
        status: 0x00,
        answer: Octets::from_slice(alloc, &ANSWER)?,
        answered: true,
    };
    let events = vec![in alloc;
        Event::Begin(Batch::new(vec![in alloc; reserve]?)),
        Event::Seal,
        Event::Leave {
            reservation: 2 * place + 1,
            place: 1
        },
        Event::Deliver {
            card: CARD,
            pieces: Pieces::new(vec![in alloc; place]?),
            step
        },
        Event::Give { made: place },
        Event::Begin(Batch::new(vec![in alloc; done]?)),
        Event::Seal,
    ]?;
    Ok(events)
}

fn take(world: &mut World, events: &[Event]) -> Result<u64> {
    match world.run(events) {
        Ok(()) => Ok(events.len() as u64),
        Err((at, refusal)) => Err(anyhow!("event {at} is refused: {refusal:?}")),
    }
}

/// The world after so many jobs, and how many events it took.
fn run(alloc: Global, jobs: u32) -> Result<(World, u64)> {
    let mut world = new_world(alloc)?;
    let open = Entry::Open {
        by: 0,
        moment: 0,
        keyset: keyset(),
        facts: facts()?,
    };
    let first = vec![in alloc;
        Event::Begin(Batch::new(vec![in alloc; open]?)),
        Event::Seal,
    ]?;
    let mut taken = take(&mut world, first.as_slice())?;
    for job in 1..=jobs {
        let events = job_events(alloc, job)?;
        taken = taken.saturating_add(take(&mut world, events.as_slice())?);
    }
    Ok((world, taken))
}

/// How many events were taken for so many jobs, and how many of the card's lines are finished then.
pub fn outcome(alloc: Global, jobs: u32) -> Result<(u64, usize)> {
    let (world, taken) = run(alloc, jobs)?;
    let finished = world
        .log_of(CARD)
        .iter()
        .filter(|line| line.finished)
        .count();
    Ok((taken, finished))
}

/// The processor's nanoseconds for so many jobs.
pub fn measured(rt: &impl CpuClock, alloc: Global, jobs: u32) -> Result<u128> {
    let start = rt.thread_cpu_time()?;
    let (world, taken) = run(alloc, jobs)?;
    let time = rt.thread_cpu_time()?.saturating_sub(start).as_nanos();
    ensure!(
        taken > 0 && world.given().len() as u64 == u64::from(jobs),
        "a job is left"
    );
    Ok(time)
}
