// What the memories hold when the machines begin: words with the instruction that each is.

// An instruction of the first maker's program, and what it is for.
#[derive(Clone, Copy)]
pub(crate) struct Try {
    pub(crate) what: &'static str,
    pub(crate) word: u32,
}

// Where each maker's program lies, by its own addresses.
pub(crate) const PROGRAM: u32 = 0x0040_0000;

// Where the tries begin in the first one's.
pub(crate) const FIRST_TRY: u32 = PROGRAM + 4 * ADDRESSES as u32;

const ADDRESSES: usize = 7;

const TRY_COUNT: usize = 37;

// At the reset address. EENTRY and TLBRENTRY get the addresses of the two handlers. Each maker has an ASID and the pair of pages at 0x400000:
// its program, which cannot be stored to, and its data, which is the formula book of the second. That one has its valves at 0x800000 too. For
// PLV0 the book is at 0x20C00000, with a page behind it that is not valid, and a window keeps addresses below 0x20000000 as they are. Line 0
// wakes the supervisor. Then the first maker's program starts in PLV3.
pub(crate) const START: [u32; 66] = [
    0x1438_0005, // lu12i.w r5, 114688
    0x0388_00a5, // ori r5, r5, 512
    0x0400_3025, // csrwr r5, 0x000C
    0x1438_0005, // lu12i.w r5, 114688
    0x038a_00a5, // ori r5, r5, 640
    0x0402_2025, // csrwr r5, 0x0088
    0x0280_0406, // addi.w r6, r0, 1
    0x0400_6026, // csrwr r6, 0x0018
    0x1400_8006, // lu12i.w r6, 1024
    0x0400_4426, // csrwr r6, 0x0011
    0x1403_8006, // lu12i.w r6, 7168
    0x0384_34c6, // ori r6, r6, 269
    0x0400_4826, // csrwr r6, 0x0012
    0x0284_3c06, // addi.w r6, r0, 271
    0x0400_4c26, // csrwr r6, 0x0013
    0x1418_0006, // lu12i.w r6, 49152
    0x0400_4026, // csrwr r6, 0x0010
    0x0648_3000, // tlbwr
    0x0280_0806, // addi.w r6, r0, 2
    0x0400_6026, // csrwr r6, 0x0018
    0x1400_8006, // lu12i.w r6, 1024
    0x0400_4426, // csrwr r6, 0x0011
    0x1403_8006, // lu12i.w r6, 7168
    0x0388_34c6, // ori r6, r6, 525
    0x0400_4826, // csrwr r6, 0x0012
    0x0288_3c06, // addi.w r6, r0, 527
    0x0400_4c26, // csrwr r6, 0x0013
    0x1418_0006, // lu12i.w r6, 49152
    0x0380_04c6, // ori r6, r6, 1
    0x0400_4026, // csrwr r6, 0x0010
    0x0648_3000, // tlbwr
    0x0280_0806, // addi.w r6, r0, 2
    0x0400_6026, // csrwr r6, 0x0018
    0x1401_0006, // lu12i.w r6, 2048
    0x0400_4426, // csrwr r6, 0x0011
    0x1402_0006, // lu12i.w r6, 4096
    0x0380_3cc6, // ori r6, r6, 15
    0x0400_4826, // csrwr r6, 0x0012
    0x0400_4c20, // csrwr r0, 0x0013
    0x1418_0006, // lu12i.w r6, 49152
    0x0380_08c6, // ori r6, r6, 2
    0x0400_4026, // csrwr r6, 0x0010
    0x0648_3000, // tlbwr
    0x1441_8006, // lu12i.w r6, 134144
    0x0400_4426, // csrwr r6, 0x0011
    0x0289_0c06, // addi.w r6, r0, 579
    0x0400_4826, // csrwr r6, 0x0012
    0x0281_0006, // addi.w r6, r0, 64
    0x0400_4c26, // csrwr r6, 0x0013
    0x1418_0006, // lu12i.w r6, 49152
    0x0380_0cc6, // ori r6, r6, 3
    0x0400_4026, // csrwr r6, 0x0010
    0x0648_3000, // tlbwr
    0x0280_1006, // addi.w r6, r0, 4
    0x0400_1026, // csrwr r6, 0x0004
    0x0280_0406, // addi.w r6, r0, 1
    0x0400_6026, // csrwr r6, 0x0018
    0x0280_0c06, // addi.w r6, r0, 3
    0x0400_0426, // csrwr r6, 0x0001
    0x1400_8006, // lu12i.w r6, 1024
    0x0400_1826, // csrwr r6, 0x0006
    0x0280_4406, // addi.w r6, r0, 17
    0x0406_0026, // csrwr r6, 0x0180
    0x0280_4006, // addi.w r6, r0, 16
    0x0400_0026, // csrwr r6, 0x0000
    0x0648_3800, // ertn
];

// For every exception but a refill. After a SYSCALL the supervisor waits, and gives the turn to the second maker when it is woken. Where BADV
// is ERA, a fetch failed, and the program goes on at r1; else behind the instruction. r1, r6 and r20 to r23 are not kept, and no register is
// cleared between the makers: the first has no turn behind the second's.
pub(crate) const HANDLER: [u32; 18] = [
    0x0400_1414, // csrrd r20, 0x0005
    0x0400_1c15, // csrrd r21, 0x0007
    0x0400_1816, // csrrd r22, 0x0006
    0x0044_c294, // srli.w r20, r20, 16
    0x0280_2c17, // addi.w r23, r0, 11
    0x5800_1e97, // beq r20, r23, 28
    0x5800_12b6, // beq r21, r22, 16
    0x0280_12d6, // addi.w r22, r22, 4
    0x0400_1836, // csrwr r22, 0x0006
    0x0648_3800, // ertn
    0x0400_1821, // csrwr r1, 0x0006
    0x0648_3800, // ertn
    0x0648_8000, // idle 0
    0x0280_0806, // addi.w r6, r0, 2
    0x0400_6026, // csrwr r6, 0x0018
    0x1400_8006, // lu12i.w r6, 1024
    0x0400_1826, // csrwr r6, 0x0006
    0x0648_3800, // ertn
];

// For a refill: it goes on as above. r1, r21 and r22 are not kept.
pub(crate) const REFILL: [u32; 8] = [
    0x0400_1c15, // csrrd r21, 0x0007
    0x0400_1816, // csrrd r22, 0x0006
    0x5800_12b6, // beq r21, r22, 16
    0x0280_12d6, // addi.w r22, r22, 4
    0x0400_1836, // csrwr r22, 0x0006
    0x0648_3800, // ertn
    0x0400_1821, // csrwr r1, 0x0006
    0x0648_3800, // ertn
];

// How the first maker's program begins: r10 to r16 get addresses that it knows or guesses. TRIES follow.
pub(crate) const FIRST_ADDRESSES: [u32; ADDRESSES] = [
    0x1400_004a, // lu12i.w r10, 2
    0x1400_802b, // lu12i.w r11, 1025
    0x1401_000c, // lu12i.w r12, 2048
    0x1420_000d, // lu12i.w r13, 65536
    0x1438_000e, // lu12i.w r14, 114688
    0x1400_800f, // lu12i.w r15, 1024
    0x1441_8010, // lu12i.w r16, 134144
];

// What a try learns, if anything, is in r9 behind it.
pub(crate) const TRIES: [Try; TRY_COUNT] = [
    Try {
        what: "load at the book's physical address",
        word: 0x2880_0149, // ld.w r9, r10, 0
    },
    Try {
        what: "load at the address of the other maker's book, where this maker has its own page",
        word: 0x2880_0169, // ld.w r9, r11, 0
    },
    Try {
        what: "load at the address of the other maker's valves",
        word: 0x2880_0189, // ld.w r9, r12, 0
    },
    Try {
        what: "load at the valves' physical address",
        word: 0x2880_01a9, // ld.w r9, r13, 0
    },
    Try {
        what: "load at an address of the supervisor's",
        word: 0x2880_01c9, // ld.w r9, r14, 0
    },
    Try {
        what: "load at the address where the supervisor has the book",
        word: 0x2880_0209, // ld.w r9, r16, 0
    },
    Try {
        what: "take the address of a page that is not valid",
        word: 0x1441_8029, // lu12i.w r9, 134145
    },
    Try {
        what: "load from it",
        word: 0x2880_0129, // ld.w r9, r9, 0
    },
    Try {
        what: "load at a misaligned address of the book",
        word: 0x2880_0549, // ld.w r9, r10, 1
    },
    Try {
        what: "store to the book",
        word: 0x2980_0149, // st.w r9, r10, 0
    },
    Try {
        what: "store to the valves",
        word: 0x2980_1189, // st.w r9, r12, 4
    },
    Try {
        what: "store to its own program",
        word: 0x2980_01e9, // st.w r9, r15, 0
    },
    Try {
        what: "load linked from the book",
        word: 0x2000_0149, // ll.w r9, r10, 0
    },
    Try {
        what: "store conditional to the book",
        word: 0x2100_0149, // sc.w r9, r10, 0
    },
    Try {
        what: "jump into the book",
        word: 0x4c00_0141, // jirl r1, r10, 0
    },
    Try {
        what: "take a misaligned address of the book",
        word: 0x0280_0949, // addi.w r9, r10, 2
    },
    Try {
        what: "jump to it",
        word: 0x4c00_0121, // jirl r1, r9, 0
    },
    Try {
        what: "cache operation on the book",
        word: 0x0600_0150, // cacop 16, r10, 0
    },
    Try {
        what: "cache operation by index",
        word: 0x0600_0148, // cacop 8, r10, 0
    },
    Try {
        what: "prefetch the book",
        word: 0x2ac0_0140, // preld 0, r10, 0
    },
    Try {
        what: "read TLBEHI",
        word: 0x0400_4409, // csrrd r9, 0x0011
    },
    Try {
        what: "take the word of a window for PLV3",
        word: 0x0280_2409, // addi.w r9, r0, 9
    },
    Try {
        what: "open that window",
        word: 0x0406_0429, // csrwr r9, 0x0181
    },
    Try {
        what: "take the number of the other maker's ASID",
        word: 0x0280_0809, // addi.w r9, r0, 2
    },
    Try {
        what: "write it to ASID",
        word: 0x0400_6029, // csrwr r9, 0x0018
    },
    Try {
        what: "write it to ASID under a mask",
        word: 0x0400_6129, // csrxchg r9, r9, 0x0018
    },
    Try {
        what: "search the TLB",
        word: 0x0648_2800, // tlbsrch
    },
    Try {
        what: "read a TLB entry",
        word: 0x0648_2c00, // tlbrd
    },
    Try {
        what: "write a TLB entry",
        word: 0x0648_3000, // tlbwr
    },
    Try {
        what: "fill a TLB entry",
        word: 0x0648_3400, // tlbfill
    },
    Try {
        what: "empty the TLB",
        word: 0x0649_8000, // invtlb 0, r0, r0
    },
    Try {
        what: "return as a handler does",
        word: 0x0648_3800, // ertn
    },
    Try {
        what: "wait for an interrupt",
        word: 0x0648_8000, // idle 0
    },
    Try {
        what: "an instruction that there is not",
        word: 0x0000_0000, // undefined
    },
    Try {
        what: "a breakpoint",
        word: 0x002a_0000, // break 0
    },
    Try {
        what: "read the time",
        word: 0x0000_6009, // rdcntvl.w r9
    },
    Try {
        what: "end its turn",
        word: 0x002b_0000, // syscall 0
    },
];

pub(crate) fn tried_words() -> [u32; TRY_COUNT] {
    let mut words = [0u32; TRY_COUNT];
    for (word, tried) in words.iter_mut().zip(TRIES.iter()) {
        *word = tried.word;
    }
    words
}

// The second maker's program: the channel and the shots of its first formula go to the valves.
pub(crate) const SECOND_PROGRAM: [u32; 7] = [
    0x1400_802a, // lu12i.w r10, 1025
    0x2880_0144, // ld.w r4, r10, 0
    0x2880_1145, // ld.w r5, r10, 4
    0x1401_000b, // lu12i.w r11, 2048
    0x2980_0164, // st.w r4, r11, 0
    0x2980_1165, // st.w r5, r11, 4
    0x002b_0000, // syscall 0
];

// The first maker's data.
pub(crate) const OWN_WORDS: [u32; 1] = [0x0000_001f];

// The formula books: channels and shots, in pairs.
pub(crate) const LEFT_BOOK: [u32; 4] = [3, 312, 12, 45];

pub(crate) const RIGHT_BOOK: [u32; 4] = [5, 290, 1, 144];

// What the right board's valves pour before the machines begin: a channel and shots.
pub(crate) const RIGHT_ORDER: [u32; 2] = [2, 7];
