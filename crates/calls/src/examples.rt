// The call on a small image.
use super::exports::rulebook_list;

// Two features and a target of size 2, with the rows (0,0) with 0, (1,0) with 0 and (1,1) with 1.
const IMAGE: &[u8; 80] =
    b"OBS\x00\x01\x02\x01\x00\x00\x03\x00\x00\x00\x00\x00\x00\x02\x02\x00\x00\x00\x00\x00\x00\x02\x00\x00\x00\x00\x00\x00\x00\x01\x00\x00\x00\x00\x00\x00\x00\x00\x00\x00\x00\x00\x00\x00\x00\x01\x00\x00\x00\x01\x00\x00\x00\x00\x00\x00\x00\x00\x00\x00\x00\x01\x00\x00\x00\x01\x01\x00\x00\x00\x00\x00\x00\x01\x00\x00\x00";

#[test]
fn two_rules_of_an_image(rt: HostRuntime) {
    let mut rules = [7u8; 17];
    let answer = rulebook_list(rt.alloc(), false, IMAGE, 0, 1, true, &mut rules);
    assert_eq!(rt; answer.rules, 2);
    assert_eq!(rt; answer.refusal, 0);
    assert_eq!(rt;
        &rules,
        b"\x00\x01\x00\x00\x00\x00\x00\x00\x01\x00\x00\x00\x00\x00\x00\x00\x07"
    );
}

#[test]
fn too_little_rule_memory(rt: HostRuntime) {
    let mut rules = [7u8; 15];
    let answer = rulebook_list(rt.alloc(), false, IMAGE, 0, 1, true, &mut rules);
    assert_eq!(rt; answer.rules, 2);
    assert_eq!(rt; answer.refusal, 10);
    assert_eq!(rt; &rules, &[7u8; 15]);
}

#[test]
fn no_image(rt: HostRuntime) {
    let mut rules = [7u8; 8];
    let answer = rulebook_list(rt.alloc(), true, b"OBX", 0, 1, false, &mut rules);
    assert_eq!(rt; answer.rules, 0);
    assert_eq!(rt; answer.refusal, 2);
    assert_eq!(rt; &rules, &[7u8; 8]);
}
