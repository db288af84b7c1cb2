// The bits of a mark.
#![tactic(auto, unfolding(ledger::specs::Memory::is_asked, ledger::specs::Memory::is_offered, ledger::specs::Memory::is_served, ledger::specs::Memory::is_met))]

ghost use Rattle.std.specs.Prelude.{◌≡◌, ◌/◌, ◌%◌, ◌<◌, eqb};
ghost use Rattle.ledger.specs.Memory.{is_asked, is_offered, is_served, is_met};

const ASKED: u8 = 1;

const OFFERED: u8 = 2;

const SERVED: u8 = 4;

const MET: u8 = 8;

pub fn is_asked(m: u8) -> bool
    ensures { result ≡ is_asked m }
{
    has::<ASKED>(m)
}

pub fn is_offered(m: u8) -> bool
    ensures { result ≡ is_offered m }
{
    has::<OFFERED>(m)
}

pub fn is_served(m: u8) -> bool
    ensures { result ≡ is_served m }
{
    has::<SERVED>(m)
}

pub fn is_met(m: u8) -> bool
    ensures { result ≡ is_met m }
{
    has::<MET>(m)
}

// Whether a mark has the bit of this weight.
fn has<const BIT: u8>(m: u8) -> bool
    requires { 0 < BIT }
    ensures { result ≡ eqb (m / BIT % 2) 1 }
{
    m / BIT % 2 == 1
}
