//! The channels between the caller of a run and the workers that stay for it.
use crate::calls::{Call, Planned, Reply};
use crate::crew::{Crew, Sharing, workers_for};
use crossbeam_channel::{Receiver, Sender, bounded};
use lane_turn::LaneFault;
use std::alloc::{AllocError, Global};

/// The caller's ends of a channel of calls and of one of replies.
#[derive(Drop)]
pub(crate) struct Ends<J: Planned> {
    pub(crate) calls: Sender<Call<J>>,
    pub(crate) replies: Receiver<Result<Reply<J>, LaneFault>>,
}

/// The channels that all workers share.
#[derive(Drop)]
pub(crate) struct Shared<J: Planned> {
    pub(crate) ends: Ends<J>,
    /// By it the caller takes calls itself, as a worker does.
    pub(crate) waiting: Receiver<Call<J>>,
}

/// What the caller holds of the workers that stay.
#[derive(Drop)]
pub(crate) enum Channels<J: Planned> {
    /// Each worker has channels of its own, for the lanes that are dealt out to it.
    Own(Vec<Ends<J>>),
    /// All workers share two: each takes the next lane that waits.
    Queue(Shared<J>),
}

impl<J: Planned> Channels<J> {
    /// Leaves out all workers but the first, so many, where each has channels of its own.
    pub(crate) fn keep(&mut self, started: usize) {
        match self {
            Channels::Own(ends) => ends.truncate(started),
            Channels::Queue(_) => {}
        }
    }
}

/// A worker's ends of its channels.
#[derive(Drop)]
pub(crate) struct Place<J: Planned> {
    /// The worker's number, where it takes lanes from a queue; where lanes are dealt out, each share has its own.
    pub(crate) worker: Option<u32>,
    pub(crate) calls: Receiver<Call<J>>,
    pub(crate) replies: Sender<Result<Reply<J>, LaneFault>>,
}

/// Channels, and the places of the workers at them.
pub(crate) struct Opened<J: Planned> {
    pub(crate) channels: Channels<J>,
    pub(crate) places: Vec<Place<J>>,
}

/// Two channels for each of so many workers, with room for one message.
fn open_own<J: Planned>(alloc: Global, others: u32) -> Result<Opened<J>, AllocError> {
    let mut all = Vec::new(alloc);
    let mut places = Vec::new(alloc);
    for _ in 0..others {
        let (to, calls) = bounded::<Call<J>, Global>(alloc, 1)?;
        let (replies, from) = bounded::<Result<Reply<J>, LaneFault>, Global>(alloc, 1)?;
        all.push(Ends {
            calls: to,
            replies: from,
        })?;
        places.push(Place {
            worker: None,
            calls,
            replies,
        })?;
    }
    Ok(Opened {
        channels: Channels::Own(all),
        places,
    })
}

/// Two channels that so many workers share with the caller, with room for all lanes.
fn open_queue<J: Planned>(
    alloc: Global,
    others: u32,
    lanes: usize,
) -> Result<Opened<J>, AllocError> {
    let (to, waiting) = bounded::<Call<J>, Global>(alloc, lanes)?;
    let (replies, from) = bounded::<Result<Reply<J>, LaneFault>, Global>(alloc, lanes)?;
    let mut places = Vec::new(alloc);
    for before in 0..others {
        places.push(Place {
            worker: Some(before + 1),
            calls: waiting.clone()?,
            replies: replies.clone()?,
        })?;
    }
    let ends = Ends {
        calls: to,
        replies: from,
    };
    Ok(Opened {
        channels: Channels::Queue(Shared { ends, waiting }),
        places,
    })
}

/// Channels for the workers beside the caller: as many as lanes or workers but one.
pub(crate) fn open_channels<J: Planned>(
    alloc: Global,
    crew: &Crew,
    lanes: usize,
) -> Result<Opened<J>, AllocError> {
    let others = workers_for(crew.workers, lanes).saturating_sub(1);
    match crew.sharing {
        Sharing::Queue => open_queue(alloc, others, lanes),
        Sharing::Round | Sharing::Fixed(_) => open_own(alloc, others),
    }
}
