//! The callers in `run_examples` that transcode parts, lines, packets and rings.
use cuts::{Form, Recoder};
use run_examples::parts::{
    append_shards, count_two, feed_line, recode_in_parts, recode_ring, recode_two,
};
use run_examples::rooms::{feed_by_packets, feed_packet, send_end};
use std::test::Fail;

// FF and the two bytes of E2 82 are faults by RFC 3629, section 4; EF BF BD is an encoded U+FFFD.
#[test]
fn faults_are_counted(rt: HostRuntime) -> Result<(), Fail> {
    let mut recoder = Recoder::new(Form::Utf8, Form::Utf16Le);
    let mut room = [0; 16];
    let first = recoder.feed_into(b"\xff\xef\xbf", &mut room);
    assert!(rt; first.replaced == 1 && recoder.replaced() == 1);
    let second = recoder.feed_into(b"\xbda\xe2\x82", &mut room);
    assert!(rt; second.replaced == 0 && recoder.replaced() == 1);
    let last = recoder.finish_into(&mut room);
    assert!(rt; last.replaced == 2 && recoder.replaced() == 3);
    assert!(rt; count_two(rt.alloc(), Form::Utf8, b"\xff\xef\xbf", b"\xbda\xe2\x82")? == 3);
    // D800 is unpaired, and half a unit follows it.
    assert!(rt; count_two(rt.alloc(), Form::Utf16Be, b"\xd8", b"\x00\x41")? == 2);
    Ok(())
}

#[test]
fn a_line_waits_only_inside_a_character(rt: HostRuntime) -> Result<(), Fail> {
    let mut recoder = Recoder::new(Form::Utf8, Form::Utf8);
    let mut out = Vec::new(rt.alloc());
    assert!(rt; !feed_line(&mut recoder, b"caf\xe9\n", &mut out)?);
    assert!(rt; out.as_slice() == b"caf\xef\xbf\xbd\n".as_slice());
    assert!(rt; feed_line(&mut recoder, b"\xe9\x80", &mut out)?);
    assert!(rt; recoder.held() == b"\xe9\x80".as_slice() && out.len() == 7);
    assert!(rt; !feed_line(&mut recoder, b"\xb1", &mut out)?);
    assert!(rt; out.as_slice() == b"caf\xef\xbf\xbd\n\xe9\x80\xb1".as_slice());
    Ok(())
}

#[test]
fn parts_of_any_size_are_recoded_alike(rt: HostRuntime) -> Result<(), Fail> {
    let bytes = b"A\xf0\x9f\x82\xa0\xe2\x82B\xff";
    let units = b"A\0\x3c\xd8\xa0\xdc\xfd\xff\xfd\xffB\0\xfd\xff";
    for size in 1..=10 {
        let recoded = recode_in_parts(rt.alloc(), Form::Utf8, Form::Utf16Le, bytes, size)?;
        assert!(rt;
            recoded.as_slice() == units.as_slice(),
            "in parts of {size}"
        );
    }
    Ok(())
}

#[test]
fn a_code_lies_over_two_parts(rt: HostRuntime) -> Result<(), Fail> {
    let joined = recode_two(rt.alloc(), Form::Utf8, Form::Utf16Le, b"f\xcf", b"\x80b")?;
    assert!(rt; joined.as_slice() == b"f\0\xc0\x03b\0".as_slice());
    let broken = recode_two(rt.alloc(), Form::Utf8, Form::Utf16Le, b"\xe2\x82", b"b")?;
    assert!(rt; broken.as_slice() == b"\xfd\xff\xfd\xffb\0".as_slice());
    Ok(())
}

// Expected values as Python encodes "a€", U+FFFD and U+1F0A0.
#[test]
fn a_ring_and_shards_are_recoded_as_one_text(rt: HostRuntime) -> Result<(), Fail> {
    let want = b"\0a\x20\xac\xff\xfd\xd8\x3c\xdc\xa0";
    let ring = b"\x82\xac\xff\xf0\x9f\x82\xa0a\xe2";
    let made = recode_ring(rt.alloc(), Form::Utf8, Form::Utf16Be, ring, 7)?;
    assert!(rt; made.as_slice() == want.as_slice());
    let whole = b"a\xe2\x82\xac\xff\xf0\x9f\x82\xa0";
    for at in 0..=10 {
        let mut out = Vec::new(rt.alloc());
        append_shards(&mut out, Form::Utf8, Form::Utf16Be, whole, at)?;
        assert!(rt; out.as_slice() == want.as_slice(), "cut at {at}");
    }
    Ok(())
}

#[test]
fn packets_carry_what_is_recoded(rt: HostRuntime) -> Result<(), Fail> {
    let mut part = Vec::new(rt.alloc());
    for _ in 0..9 {
        part.extend_from_slice(b"a\xe2\x82\xac\xff\xf0\x9f\x82\xa0")?;
    }
    let mut recoder = Recoder::new(Form::Utf8, Form::Utf16Be);
    let mut sent = Vec::new(rt.alloc());
    feed_by_packets(&mut recoder, &part, &mut sent)?;
    recoder.finish(&mut sent)?;
    assert!(rt; sent.len() == 90);
    let piece = b"\0a\x20\xac\xff\xfd\xd8\x3c\xdc\xa0";
    assert!(rt; &sent[..10] == piece.as_slice() && &sent[80..] == piece.as_slice());
    Ok(())
}

#[test]
fn a_character_that_is_cut_off_is_sent_at_the_end(rt: HostRuntime) -> Result<(), Fail> {
    let mut recoder = Recoder::new(Form::Utf8, Form::Utf16Be);
    let mut sent = Vec::new(rt.alloc());
    let read = feed_packet(&mut recoder, b"a\xe2\x82\xac\xf0\x9f\x82", &mut sent)?;
    assert!(rt; read == 7 && sent.len() == 4);
    assert!(rt; send_end(&mut recoder, &mut sent)?);
    assert!(rt; sent.as_slice() == b"\0a\x20\xac\xff\xfd\xff\xfd\xff\xfd".as_slice());
    Ok(())
}
