//! Each trait can be met: an object that tells nothing, whose calls all fail and are counted.
ghost use Rattle.std.specs.Prelude.{◌≡◌, ◌≤◌, ◌+◌, ◌-◌, ◌^◌, min};

use crate::meaning::Anything;
use ir_tree::Text;
use lto_outside::{
    ByteIn, ByteOut, CacheDisk, Fault, FetchFault, Files, Gate, LoadFault, Stage, calls_in_a_row,
    disk_stays_honest,
};
use outside_real::RealGate;
use std::alloc::Global;

/// Files, a disk, input and output that fail at each call.
#[derive(Drop)]
struct Broken {
    faults: u64,
}

impl Broken {
    fn fail(&mut self) -> Fault
        ensures counted { self.new.faults ≡ min (self.old.faults + 1) (2 ^ 64 - 1) }
        ensures later { self.old.faults ≤ self.new.faults }
    {
        self.faults = self.faults.saturating_add(1);
        Fault
    }
}

impl ByteIn for Broken {
    ghost use Rattle.std.specs.Prelude.{None};

    ghost left = { λ b. None };

    ghost faults = { λ b. b.faults };

    fn next(&mut self) -> Result<Option<u8>, Fault> {
        Err(self.fail())
    }

    fn faults(&self) -> u64 {
        self.faults
    }
}

impl ByteOut for Broken {
    ghost use Rattle.std.specs.Prelude.{None};

    ghost sent = { λ b. None };

    ghost faults = { λ b. b.faults };

    fn push(&mut self, _b: u8) -> Result<(), Fault> {
        Err(self.fail())
    }

    fn faults(&self) -> u64 {
        self.faults
    }
}

impl CacheDisk for Broken {
    ghost use Rattle.std.specs.Prelude.{None};

    ghost held = { λ b. None };

    ghost faults = { λ b. b.faults };

    ghost fits = { λ key text. Unit {0} };

    fn load(&mut self, _alloc: Global, _dir: &str, _name: &str) -> Result<Option<Text>, LoadFault> {
        let _fault = self.fail();
        Err(LoadFault::Fault)
    }

    fn save(&mut self, _dir: &str, _name: &str, _bytes: &[u8]) -> Result<(), Fault> {
        Err(self.fail())
    }

    fn faults(&self) -> u64 {
        self.faults
    }
}

impl Files for Broken {
    ghost use Rattle.std.specs.Prelude.{None};

    ghost held = { λ b. None };

    ghost faults = { λ b. b.faults };

    ghost did = { λ a calls b. Unit {0} };

    fn fetch(&mut self, _alloc: Global, _name: &str) -> Result<Text, FetchFault> {
        let _fault = self.fail();
        Err(FetchFault::Fault)
    }

    fn put(&mut self, _name: &str, _bytes: &[u8]) -> Result<(), Fault> {
        Err(self.fail())
    }

    fn faults(&self) -> u64 {
        self.faults
    }

    ghost did_none = { λ a. tt };

    ghost did_more = { λ a b c first rest p q. tt };

    ghost did_tells = { λ a b calls p. tt };
}

#[test]
fn each_failure_is_counted_up_to_the_last_number(rt: HostRuntime) {
    let mut broken = Broken { faults: 0 };
    assert!(rt; broken.next() == Err(Fault));
    assert!(rt; broken.push(65) == Err(Fault));
    assert!(rt; broken.save("cache", "a.tlto", b"text") == Err(Fault));
    assert!(rt; broken.put("o", b"text") == Err(Fault));
    assert!(rt; broken.faults == 4);
    let fetched = match broken.fetch(rt.alloc(), "a.ll") {
        Err(FetchFault::Fault) => true,
        _ => false,
    };
    let loaded = match broken.load(rt.alloc(), "cache", "a.tlto") {
        Err(LoadFault::Fault) => true,
        _ => false,
    };
    assert!(rt; fetched && loaded);
    assert!(rt; broken.faults == 6);

    // A full count stands still.
    let mut full = Broken { faults: u64::MAX };
    assert!(rt; full.next() == Err(Fault));
    assert!(rt; full.faults == u64::MAX);

    // A gate that lets each worker through, and the laws can be called.
    RealGate.pass(0, None, Stage::Claim);
    calls_in_a_row();
    disk_stays_honest::<Anything>();
}
