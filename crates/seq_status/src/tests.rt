use crate::{Holder, Status, of_word, to_word};
use seq_words::Pe;

// A status and its word, for each kind, and at the greatest processor and incarnation.
#[test]
fn statuses_and_their_words(rt: HostRuntime) {
    let holder = Holder {
        pe: Pe(3),
        incarnation: 0x1234,
    };
    let last = Holder {
        pe: Pe(255),
        incarnation: 0xffff_ffff_ffff,
    };
    for (status, word) in [
        (Status::Idle, 0),
        (Status::Run(holder), 0x0000_0000_1234_0301),
        (Status::Pass1(holder), 0x0000_0000_1234_0302),
        (Status::Pass2(holder), 0x0000_0000_1234_0303),
        (Status::Back(holder), 0x0000_0000_1234_0304),
        (Status::Forward(holder), 0x0000_0000_1234_0305),
        (Status::Run(last), 0xffff_ffff_ffff_ff01),
    ] {
        assert_eq!(rt; to_word(&status), word);
        assert_eq!(rt; of_word(word), Some(status));
    }
}

#[test]
fn words_outside_the_format(rt: HostRuntime) {
    for word in [6, 255, 0x100, 0x1_0000, 0x1234_0306, 0xffff_ffff_ffff_ff00] {
        assert_eq!(rt; of_word(word), None, "{word}");
    }
}
