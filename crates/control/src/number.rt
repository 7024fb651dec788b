// The control registers there are.
ghost use Rattle.std.specs.Prelude.{◌≡◌};
ghost use Rattle.control.specs.Numbers.{csr_numbered};

#[derive(Clone, Copy, PartialEq, Eq, Debug)]
pub enum Csr {
    Crmd,
    Prmd,
    Euen,
    Ecfg,
    Estat,
    Era,
    Badv,
    Eentry,
    Tlbidx,
    Tlbehi,
    Tlbelo0,
    Tlbelo1,
    Asid,
    Pgdl,
    Pgdh,
    Pgd,
    Cpuid,
    Save0,
    Save1,
    Save2,
    Save3,
    Tid,
    Tcfg,
    Tval,
    Ticlr,
    Llbctl,
    Tlbrentry,
    Ctag,
    Dmw0,
    Dmw1,
}

impl Csr {
    pub fn numbered(number: u32) -> Option<Csr>
        ensures { result ≡ csr_numbered number }
    {
        match number {
            0x0 => Some(Csr::Crmd),
            0x1 => Some(Csr::Prmd),
            0x2 => Some(Csr::Euen),
            0x4 => Some(Csr::Ecfg),
            0x5 => Some(Csr::Estat),
            0x6 => Some(Csr::Era),
            0x7 => Some(Csr::Badv),
            0xc => Some(Csr::Eentry),
            0x10 => Some(Csr::Tlbidx),
            0x11 => Some(Csr::Tlbehi),
            0x12 => Some(Csr::Tlbelo0),
            0x13 => Some(Csr::Tlbelo1),
            0x18 => Some(Csr::Asid),
            0x19 => Some(Csr::Pgdl),
            0x1a => Some(Csr::Pgdh),
            0x1b => Some(Csr::Pgd),
            0x20 => Some(Csr::Cpuid),
            0x30 => Some(Csr::Save0),
            0x31 => Some(Csr::Save1),
            0x32 => Some(Csr::Save2),
            0x33 => Some(Csr::Save3),
            0x40 => Some(Csr::Tid),
            0x41 => Some(Csr::Tcfg),
            0x42 => Some(Csr::Tval),
            0x44 => Some(Csr::Ticlr),
            0x60 => Some(Csr::Llbctl),
            0x88 => Some(Csr::Tlbrentry),
            0x98 => Some(Csr::Ctag),
            0x180 => Some(Csr::Dmw0),
            0x181 => Some(Csr::Dmw1),
            _ => None,
        }
    }
}
