// The record of a module, and the methods of the Rust's `Module`.
#![tactic(auto, unfolding(crate::specs::Module::is_one_gig, crate::specs::Module::is_known, crate::specs::Module::is_supported, crate::specs::Module::key_of, hardware::specs::Prog::pick))]

ghost use Rattle.std.specs.Prelude.{◌≡◌};
ghost use Rattle.sfp.specs.Identify.{absent, other};
ghost use Rattle.sfp.specs.Module.{record_of, is_present, is_one_gig, is_linear, is_known, is_supported, key_of};

use crate::{Identity, Kind, Module};
use hardware::Family;

// The record of a module that was identified.
pub fn record(identity: Identity) -> Module
    ensures { result ≡ record_of identity }
{
    Module { identity }
}

// Nothing answered.
pub fn absent() -> Identity
    ensures { result ≡ absent }
{
    Identity {
        kind: Kind::NotPresent,
        multispeed: false,
        identifier: 0,
        comp10g: 0,
        comp1g: 0,
        cable: 0,
    }
}

// Another identifier than the awaited.
pub fn other(identifier: u8) -> Identity
    ensures { result ≡ other identifier }
{
    Identity {
        kind: Kind::Unknown,
        multispeed: false,
        identifier,
        comp10g: 0,
        comp1g: 0,
        cable: 0,
    }
}

pub fn present(m: Module) -> bool
    ensures { result ≡ is_present m.identity.kind }
{
    let i = m.identity;
    let kind = i.kind;
    !kind.is(Kind::NotPresent)
}

// 1G only.
pub fn one_gig(m: Module) -> bool
    ensures { result ≡ is_one_gig m.identity.kind }
{
    let i = m.identity;
    let kind = i.kind;
    if kind.is(Kind::Cu1g) {
        return true;
    }
    if kind.is(Kind::Sx1g) {
        return true;
    }
    if kind.is(Kind::Lx1g) {
        return true;
    }
    kind.is(Kind::Bx1g)
}

// A passive cable.
pub fn linear(m: Module) -> bool
    ensures { result ≡ is_linear m.identity.kind }
{
    let i = m.identity;
    let kind = i.kind;
    kind.is(Kind::DaCu)
}

// Something answered, and a rule fits it.
fn known(m: Module) -> bool
    ensures { result ≡ is_known m.identity.kind }
{
    let i = m.identity;
    let kind = i.kind;
    if kind.is(Kind::Unknown) {
        return false;
    }
    present(m)
}

// Whether the family takes the module.
pub fn supported(m: Module, family: Family) -> bool
    ensures { result ≡ is_supported m.identity.kind family }
{
    if known(m) {
        let i = m.identity;
        let kind = i.kind;
        if kind.is(Kind::Cu1g) {
            return !bus::x550em(family);
        }
        return true;
    }
    false
}

// The key of the 82599's NVM sequence for the module on a port.
pub fn nvm_key(m: Module, lan: u8) -> Option<u16>
    ensures { result ≡ key_of m.identity.kind lan }
{
    let core = lan as u16;
    if known(m) {
        if linear(m) {
            return Some(3 + core);
        }
        return Some(5 + core);
    }
    None
}
