//! Events of two links over one list of entries and one disk.
use ir_tree::Text;
use link_core::{Act, Core, CoreLink, DiskPair, Event, Phase, StepError};
use std::alloc::{AllocError, Global};

/// Two links share one disk, which holds `B` under `b`: two workers make `a` and `b`, one makes `a`.
fn opened(alloc: Global) -> Result<Core, AllocError> {
    let two = vec![in alloc; Text::copied(alloc, b"a")?, Text::copied(alloc, b"b")?]?;
    let one = vec![in alloc; Text::copied(alloc, b"a")?]?;
    let links = [
        CoreLink {
            keys: two,
            workers: 2,
        },
        CoreLink {
            keys: one,
            workers: 1,
        },
    ];
    let disk = [DiskPair {
        key: Text::copied(alloc, b"b")?,
        text: Text::copied(alloc, b"B")?,
    }];
    Core::start(alloc, &links, &disk)
}

/// What a worker does in a turn; what it compiles is `A`.
#[derive(Clone, Copy)]
enum Turn {
    Claim,
    Look(bool),
    Compile,
    Keep(bool),
}

/// Whether the worker of a link may do this, and has done it.
fn takes(
    alloc: Global,
    core: &mut Core,
    link: u32,
    worker: u32,
    turn: Turn,
) -> Result<bool, AllocError> {
    let act = match turn {
        Turn::Claim => Act::Claim,
        Turn::Look(given) => Act::Look { given },
        Turn::Compile => Act::Compile(Text::copied(alloc, b"A")?),
        Turn::Keep(taken) => Act::Keep { taken },
    };
    let event = Event { link, worker, act };
    Ok(core.has(&event) && core.step(alloc, &event).is_ok())
}

const TURNS: [(u32, u32, Turn); 10] = [
    (0, 0, Turn::Claim),
    (0, 1, Turn::Claim),
    (0, 1, Turn::Look(true)),
    (0, 0, Turn::Look(true)),
    (0, 1, Turn::Claim),
    (0, 0, Turn::Compile),
    (0, 0, Turn::Keep(true)),
    (1, 0, Turn::Claim),
    (1, 0, Turn::Look(false)),
    (1, 0, Turn::Claim),
];

/// Whether the results of a link are these.
fn gave(core: &Core, link: u32, wanted: &[&[u8]]) -> bool {
    let Some(results) = core.results(link) else {
        return false;
    };
    let mut same = results.len() == wanted.len();
    for (result, text) in results.iter().zip(wanted) {
        same = same && matches!(result, Some(made) if made.equals(text));
    }
    same
}

#[test]
fn two_links_share_one_list(rt: HostRuntime) -> Result<(), AllocError> {
    let alloc = rt.alloc();
    let mut core = opened(alloc)?;
    for &(link, worker, turn) in &TURNS {
        assert!(rt; takes(alloc, &mut core, link, worker, turn)?);
    }
    let [entry] = core.entries() else {
        panic!(rt; "one entry");
    };
    assert!(rt; entry.key.equals(b"a") && entry.text.equals(b"A"));
    assert!(rt; gave(&core, 0, &[b"A", b"B"]) && gave(&core, 1, &[b"A"]));
    Ok(())
}

#[test]
fn a_worker_claims_no_second_number_before_it_looks(rt: HostRuntime) -> Result<(), AllocError> {
    let alloc = rt.alloc();
    let mut core = opened(alloc)?;
    assert!(rt; takes(alloc, &mut core, 1, 0, Turn::Claim)?);
    let claim = Event {
        link: 1,
        worker: 0,
        act: Act::Claim,
    };
    assert!(rt; core.has(&claim));
    let again = core.step(alloc, &claim);
    assert!(rt;
        matches!(
            again,
            Err(StepError::NotEnabled {
                phase: Phase::Claimed(0)
            })
        )
    );
    Ok(())
}
