// Runs all 400 combinations of IO capability, OOB flag and MITM bit of both sides through both choosers and writes a line for each.
// What it must write comes from the Rust crate's own choosers (oracle/combinations).
#![tactic(auto)]

use features::{PairingFeatures, UseOutOfBand};
use method::{PairingMethod, PassKeyEntryAction};
use std::{fmt, io};

fn main(rt: HostRuntime) -> io::Result<()> {
    for n in 0..400u32 {
        combination(&rt, n)?;
    }
    Ok(())
}

// Combination n: the peripheral's MITM bit changes fastest, the central's IO capability slowest.
fn combination(rt: &impl Print, n: u32) -> io::Result<()> {
    let central = side(n / 80, n / 8 % 2, n / 2 % 2);
    let peripheral = side(n / 16 % 5, n / 4 % 2, n % 2);
    let lesc = method::choose_pairing_method(central, peripheral);
    let legacy = method::choose_legacy_pairing_method(central, peripheral);
    println!(rt;
        "central {} peripheral {} lesc {} legacy {}",
        Told(central),
        Told(peripheral),
        Chosen(lesc),
        Chosen(legacy)
    )
}

fn side(io: u32, oob: u32, mitm: u32) -> PairingFeatures {
    PairingFeatures {
        io: features::io_of((io % 5) as u8),
        oob: features::oob_of((oob % 2) as u8),
        authreq: features::auth_req(false, mitm == 1),
        keysize: 16,
        initiator: 0,
        responder: 0,
    }
}

#[derive(Clone, Copy)]
struct Told(PairingFeatures);

impl fmt::Display for Told {
    fn fmt<W: fmt::Write>(&self, f: &mut fmt::Formatter<W>) -> fmt::Result {
        let oob = u8::from(self.0.oob == UseOutOfBand::Present);
        let mitm = u8::from(self.0.man_in_the_middle());
        write!(f, "{:?} oob {oob} mitm {mitm}", self.0.io)
    }
}

// A method and the level that it gives.
#[derive(Clone, Copy)]
struct Chosen(PairingMethod);

impl fmt::Display for Chosen {
    fn fmt<W: fmt::Write>(&self, f: &mut fmt::Formatter<W>) -> fmt::Result {
        let level = self.0.security_level();
        match self.0 {
            PairingMethod::PassKeyEntry {
                central,
                peripheral,
            } => write!(f, "{} {level:?}", roles(central, peripheral)),
            method => write!(f, "{method:?} {level:?}"),
        }
    }
}

fn roles(central: PassKeyEntryAction, peripheral: PassKeyEntryAction) -> &'static str {
    match (central, peripheral) {
        (PassKeyEntryAction::Display, PassKeyEntryAction::Display) => "BothDisplay",
        (PassKeyEntryAction::Display, PassKeyEntryAction::Input) => "CentralDisplays",
        (PassKeyEntryAction::Input, PassKeyEntryAction::Display) => "PeripheralDisplays",
        (PassKeyEntryAction::Input, PassKeyEntryAction::Input) => "BothInput",
    }
}
