// The control registers as reset leaves them.
ghost use Rattle.std.specs.Prelude.{◌≡◌};
ghost use Rattle.control.specs.Reset.{reset_mode, reset_interrupts, reset_tlb_registers, reset_timer, reset_registers, ReadsAsReset};

use crate::registers::Registers;
use csr::{
    Cause, Enabled, Interrupts, Mode, Pending, PreviousMode, Timer, TlbLow, TlbRegisters,
    TranslationMode, Window, Windows,
};
use pages::{Bits, Frame, PageSize, Privilege, VirtAddr};

fn reset_mode() -> Mode
    ensures { result ≡ reset_mode }
{
    Mode {
        plv: Privilege::Plv0,
        ie: false,
        translation: TranslationMode::Direct,
        datf: Bits::of_low_bits(0),
        datm: Bits::of_low_bits(0),
        asid: Bits::of_low_bits(0),
    }
}

fn reset_interrupts() -> Interrupts
    ensures { result ≡ reset_interrupts }
{
    Interrupts {
        pending: Pending {
            swi: Bits::of_low_bits(0),
            hwi: 0,
            ti: false,
        },
        enabled: Enabled::of_enabled_bits(0),
    }
}

fn reset_tlb_registers() -> TlbRegisters
    ensures { result ≡ reset_tlb_registers }
{
    TlbRegisters {
        index: Bits::of_low_bits(0),
        ps: PageSize::Small,
        ne: false,
        vppn: Bits::of_low_bits(0),
        elo0: TlbLow::of_tlbelo(0),
        elo1: TlbLow::of_tlbelo(0),
    }
}

fn reset_timer() -> Timer
    ensures { result ≡ reset_timer }
{
    Timer {
        counter: 0,
        tid: 0,
        en: false,
        periodic: false,
        init_val: Bits::of_low_bits(0),
        tval: 0,
    }
}

impl Registers {
    #[tactic(auto, using(crate::proofs::Resetting::reads_as_reset))]
    // As reset leaves them.
    pub fn new() -> Registers
        ensures state { result ≡ reset_registers }
        ensures words { ReadsAsReset result }
    {
        Registers {
            mode: reset_mode(),
            previous: PreviousMode {
                pplv: Privilege::Plv0,
                pie: false,
            },
            interrupts: reset_interrupts(),
            cause: Cause::Int,
            era: VirtAddr(0),
            badv: VirtAddr(0),
            eentry: Bits::of_low_bits(0),
            tlbrentry: Bits::of_low_bits(0),
            tlb_registers: reset_tlb_registers(),
            pgdl: Frame::of_low_bits(0),
            pgdh: Frame::of_low_bits(0),
            save0: 0,
            save1: 0,
            save2: 0,
            save3: 0,
            timer: reset_timer(),
            windows: Windows {
                dmw0: Window::of_dmw(0),
                dmw1: Window::of_dmw(0),
            },
            link: false,
        }
    }
}
