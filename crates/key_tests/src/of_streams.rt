//! Worked streams of bytes.

use crate::reading::{ALT, character, held, name, read, reads, taken, unknown};
use keys::{Action, Asked, Key, Modifiers, Mouse, Name};

#[test]
fn characters_are_those_of_unicode(rt: HostRuntime) {
    let wanted = [
        character('é', 2),
        character('€', 3),
        character('\u{10ffff}', 4),
    ];
    assert!(rt; reads(b"\xc3\xa9\xe2\x82\xac\xf4\x8f\xbf\xbf", &wanted));
}

#[test]
fn bytes_of_no_character_are_unknown_as_unicode_has_it(rt: HostRuntime) {
    let wanted = [unknown(1), unknown(1), unknown(1), unknown(1)];
    assert!(rt; reads(b"\xf4\x90\x80\x84", &wanted));
    assert!(rt; reads(b"\xf6\xb1\x97\xb2", &wanted));
    let wanted = [
        unknown(1),
        unknown(1),
        unknown(1),
        unknown(1),
        unknown(1),
        unknown(1),
        unknown(1),
        unknown(1),
        character('A', 1),
    ];
    assert!(rt; reads(b"\xc0\xaf\xe0\x80\xbf\xf0\x81\x82A", &wanted));
    assert!(rt; reads(b"\xed\xa0\x80\xed\xbf\xbf\xed\xafA", &wanted));
    let wanted = [
        unknown(2),
        unknown(1),
        unknown(3),
        unknown(2),
        character('A', 1),
    ];
    assert!(rt; reads(b"\xe1\x80\xe2\xf0\x91\x92\xf1\xbfA", &wanted));
}

#[test]
fn control_characters_have_names_or_ctrl(rt: HostRuntime) {
    let wanted = [
        held('a', Modifiers::CTRL, 1),
        name(Name::Enter, 1),
        name(Name::Enter, 1),
        name(Name::Tab, 1),
        name(Name::Backspace, 1),
        held(' ', Modifiers::CTRL, 1),
        held('_', Modifiers::CTRL, 1),
        name(Name::Escape, 1),
    ];
    assert!(rt; reads(b"\x01\r\n\t\x7f\0\x1f\x1b", &wanted));
}

#[test]
fn sequences_are_keys_with_modifiers(rt: HostRuntime) {
    let shift_f1 = taken(Key::Pressed(Name::Function(1), Modifiers::SHIFT), 4);
    let ctrl_right = taken(Key::Pressed(Name::Right, Modifiers::CTRL), 6);
    let wanted = [
        name(Name::Up, 3),
        name(Name::Up, 3),
        ctrl_right,
        name(Name::Delete, 4),
        shift_f1,
    ];
    assert!(rt; reads(b"\x1b[A\x1bOA\x1b[1;5C\x1b[3~\x1bO2P", &wanted));
    let ctrl_f1 = taken(Key::Pressed(Name::Function(1), Modifiers::CTRL), 5);
    let shift_home = taken(Key::Pressed(Name::Home, Modifiers::SHIFT), 4);
    let wanted = [
        name(Name::Function(1), 4),
        name(Name::B2, 3),
        name(Name::Function(1), 3),
        shift_home,
        ctrl_f1,
    ];
    assert!(rt; reads(b"\x1b[[A\x1b[G\x1b[P\x1b[7$\x1b[11^", &wanted));
    let wanted = [
        held('O', ALT, 2),
        name(Name::Up, 3),
        name(Name::Escape, 1),
        name(Name::Up, 3),
        held('x', ALT, 2),
    ];
    assert!(rt; reads(b"\x1bO\x1b[A\x1b\x1b[A\x1bx", &wanted));
    let tab = |held| taken(Key::Pressed(Name::Tab, held), 6);
    let shift_alt = Modifiers {
        shift: true,
        alt: true,
        ctrl: false,
    };
    assert!(rt;
        reads(
            b"\x1b[1;3Z\x1b[1;6Z\x1b[1P",
            &[tab(shift_alt), tab(Modifiers::CTRL_AND_SHIFT), unknown(4)]
        )
    );
}

#[test]
fn characters_by_their_numbers(rt: HostRuntime) {
    let ctrl_a = |count| held('a', Modifiers::CTRL, count);
    let wanted = [
        ctrl_a(7),
        ctrl_a(10),
        ctrl_a(10),
        ctrl_a(9),
        unknown(9),
        unknown(7),
        unknown(8),
    ];
    assert!(rt;
        reads(
            b"\x1b[97;5u\x1b[27;5;97~\x1b[97:65;5u\x1b[97;5:1u\x1b[97;5:3u\x1b[97;9u\x1b[57399u",
            &wanted
        )
    );
    assert!(rt;
        reads(
            b"\x1b[97;69u\x1b[65;0;97;1;0;1_\x1b[4294967299~",
            &[ctrl_a(8), unknown(16), unknown(13)]
        )
    );
}

#[test]
fn a_string_is_one_unknown(rt: HostRuntime) {
    assert!(rt;
        reads(
            b"\x1b]11;rgb:0/0/0\x1b\\x",
            &[unknown(16), character('x', 1)]
        )
    );
    assert!(rt;
        reads(
            b"\x1bP1$r0m\x1b\\\x1b_Gi=1;OK\x07",
            &[unknown(9), unknown(10)]
        )
    );
    let wanted = [
        unknown(5),
        name(Name::Escape, 1),
        name(Name::Up, 3),
        unknown(4),
    ];
    assert!(rt; reads(b"\x1b]0;x\x1b\x1b[A\x1b]0;", &wanted));
    assert!(rt; reads(b"\x1b]1;\x1b", &[unknown(4), name(Name::Escape, 1)]));
    let wanted = [
        held(']', ALT, 2),
        character('x', 1),
        held('X', ALT, 2),
        character('1', 1),
        held('P', ALT, 2),
    ];
    assert!(rt; reads(b"\x1b]x\x1bX1\x1bP", &wanted));
    let wanted = [held(']', ALT, 2), held('\\', ALT, 2)];
    assert!(rt; reads(b"\x1b]\x1b\\", &wanted));
}

#[test]
fn a_pasted_text_ends_by_its_end_alone(rt: HostRuntime) {
    let wanted = [
        taken(Key::PasteBegins, 6),
        taken(Key::Pasted, 1),
        taken(Key::Pasted, 5),
        taken(Key::Pasted, 1),
        taken(Key::PasteEnds, 6),
        character('b', 1),
    ];
    assert!(rt; reads(b"\x1b[200~a\x1b[201A\x1b[201~b", &wanted));
    assert!(rt; read(Asked::NONE, b"\x1b[200~a").are(&[unknown(6), character('a', 1)]));
    assert!(rt; reads(b"\x1b[200:1~a", &[unknown(8), character('a', 1)]));
}

fn mouse(
    button: u8,
    held: Modifiers,
    action: Action,
    column: u32,
    line: u32,
    count: usize,
) -> keys::Taken {
    let mouse = Mouse {
        button,
        held,
        action,
        column,
        line,
    };
    taken(Key::Pointed(mouse), count)
}

#[test]
fn the_mouse_is_read_in_both_forms(rt: HostRuntime) {
    let wanted = [
        mouse(1, Modifiers::NONE, Action::Press, 0, 1, 9),
        mouse(3, Modifiers::SHIFT, Action::Release, 299, 1, 11),
        mouse(4, Modifiers::CTRL, Action::Press, 8, 0, 10),
        mouse(0, Modifiers::NONE, Action::Motion, 8, 0, 10),
        mouse(2, ALT, Action::Press, 0, 222, 6),
        mouse(0, Modifiers::NONE, Action::Release, 0, 0, 6),
        unknown(6),
    ];
    let bytes =
        b"\x1b[<0;1;2M\x1b[<6;300;2m\x1b[<80;9;1M\x1b[<35;9;1M\x1b[M)!\xff\x1b[M#!!\x1b[M \0!";
    assert!(rt; reads(bytes, &wanted));
    let wanted = [unknown(9), unknown(6), unknown(3)];
    assert!(rt; read(Asked::NONE, b"\x1b[<0;1;2M\x1b[M#!!\x1b[I").are(&wanted));
    assert!(rt;
        reads(
            b"\x1b[I\x1b[O\x1b[1I",
            &[taken(Key::FocusIn, 3), taken(Key::FocusOut, 3), unknown(4)]
        )
    );
    assert!(rt;
        reads(
            b"\x1b[<0;5:3;6M\x1b[<0;1114112;1M",
            &[unknown(11), unknown(15)]
        )
    );
}
