// Refusals that no set-up of `tintrun` comes to, and what stands in a listing's memory.
use crate::{BANK_BASE, LineAnswer, LineRefusal, Listing, Session};
use bus::{PhysAddr, Refusal};
use parts::{Bank, Image};

#[test]
fn a_listing_goes_on_after_what_its_memory_holds(rt: HostRuntime) {
    let mut words = [0u8; 16];
    let mut session = Session::new(Bank::new(BANK_BASE, &mut words));
    let mut memory = [b'.'; 52];
    let mut listing = Listing::new(&mut memory, 4);
    assert_eq!(rt;
        session.handle(b"w,1C000000,50000000\n", &mut listing),
        Ok(LineAnswer::Written)
    );
    assert_eq!(rt;
        session.handle(b"g,1", &mut listing),
        Err(LineRefusal::NoForm)
    );
    assert_eq!(rt; listing.text(), b"....no,2,10\n".as_slice());
    // 40 bytes are free.
    assert!(rt; !listing.is_full());
}

#[test]
fn a_line_that_finds_39_bytes_free_is_not_read(rt: HostRuntime) {
    let mut words = [0u8; 16];
    let mut session = Session::new(Bank::new(BANK_BASE, &mut words));
    let mut memory = [b'.'; 40];
    let mut listing = Listing::new(&mut memory, 1);
    assert!(rt; listing.is_full());
    assert_eq!(rt;
        session.handle(b"g,1\n", &mut listing),
        Err(LineRefusal::ListingFull)
    );
    // The line was not counted and reset nothing.
    let mut emptied = Listing::new(&mut memory, 0);
    assert_eq!(rt;
        session.handle(b"r,1\n", &mut emptied),
        Err(LineRefusal::OutOfPlace)
    );
    assert_eq!(rt; emptied.text(), b"no,1,11\n".as_slice());
}

// The program sets r4 to 0x1C000000 and stores there.
#[test]
fn an_image_is_not_written(rt: HostRuntime) {
    let words = [0x04u8, 0x00, 0x38, 0x14, 0x80, 0x00, 0x80, 0x29];
    let mut session = Session::new(Image::new(PhysAddr(0x1c00_0000), &words));
    let mut memory = [0u8; 80];
    let mut listing = Listing::new(&mut memory, 0);
    let fixed = LineRefusal::Bus(Refusal::Fixed(PhysAddr(0x1c00_0004)));
    assert_eq!(rt;
        session.handle(b"w,1C000004,00000000\n", &mut listing),
        Err(fixed)
    );
    assert_eq!(rt;
        session
            .handle(b"g,9\n", &mut listing)
            .map(|answer| (answer.number(), answer.address())),
        Ok((9, Some(PhysAddr(0x1c00_0000))))
    );
    assert_eq!(rt;
        listing.text(),
        b"no,1,9\nrun,1,1C000004\nno,2,9\n".as_slice()
    );
}
