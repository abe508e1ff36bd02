// The worked examples of the two leaves, run: the check word of ASCII 123456789, ten-bit and six-bit words taken out of a field, the
// same words put in again, and the fill behind three of them.
#![tactic(auto)]

use ground::Refusal;

fn print(rt: &HostRuntime, text: &[u8]) {
    let _ = rt.write_all(text);
}

fn word(rt: &HostRuntime, w: u16) {
    let _ = print!(rt; " {w}");
}

fn byte(rt: &HostRuntime, b: u8) {
    word(rt, b as u16);
}

// What a call answered, as C is told it.
fn answered(rt: &HostRuntime, answer: Result<(), Refusal>) {
    print(rt, b", answer");
    byte(
        rt,
        match answer {
            Ok(()) => ground::ACCEPTED,
            Err(refusal) => refusal.number(),
        },
    );
}

fn end_line(rt: &HostRuntime) {
    print(rt, b"\n");
}

fn check_of_digits(rt: &HostRuntime) {
    print(rt, b"check of 123456789: ");
    let check = check_word::check_word(b"123456789");
    let _ = print!(rt; "{check:04x}");
    end_line(rt);
}

// Four words of a field, then what taking them answered.
fn four_words(rt: &HostRuntime, field: &[u8], size: u8) {
    let mut room = [0u16; 4];
    let answer = taking::take_words(field, size, 4, &mut room);
    for &w in &room {
        word(rt, w);
    }
    answered(rt, answer);
    end_line(rt);
}

// The words 1, 2, 3, 4 put into five bytes.
fn five_bytes(rt: &HostRuntime) {
    let words = [1u16, 2, 3, 4];
    let mut field = [255u8; 5];
    let answer = putting::put_words(&words, 10, &mut field);
    for &b in &field {
        byte(rt, b);
    }
    answered(rt, answer);
    end_line(rt);
}

fn fill(rt: &HostRuntime, field: &[u8]) {
    if bits::fill_is_zero(field, 10, 3) {
        print(rt, b"fill behind three words: zero\n");
    } else {
        print(rt, b"fill behind three words: not zero\n");
    }
}

fn main(rt: HostRuntime) {
    let rt = &rt;
    check_of_digits(rt);
    print(rt, b"00 40 20 0C 04 in words of 10 bits:");
    four_words(rt, b"\x00\x40\x20\x0C\x04", 10);
    print(rt, b"04 20 C4 in words of 6 bits:");
    four_words(rt, b"\x04\x20\xC4", 6);
    print(rt, b"words 1 2 3 4 of 10 bits in five bytes:");
    five_bytes(rt);
    fill(rt, b"\x00\x40\x20\x0C\x04");
    fill(rt, b"\x00\x40\x20\x0C\x00");
}
