// What a panel was sent: it names the panel, writes a heading and a line for each striker that is out, asks for the active
// position, takes a striker from the list that is mended and adds another, loses a line and breaks off.
pub const PARTS: [(&str, &[u8]); 4] = [
    (
        "The list",
        b"\x1bc\x1b]0;TOWER PANEL\x1b\\\x1b[1;4mSTRIKERS OUT\x1b[0m\x85 7  TENOR HAMMER\r\n12  CLAPPER\r\n\x9b31m41  JAMMED\x1b[m",
    ),
    (
        "A note for the cabinet, and a request for the position",
        b"\x98CABINET 2 \x1b[31mNOTE\x1b\\\x1b[6;1HTOWER 19 \xb0C\x1b[6n",
    ),
    (
        "12 is mended, 43 is out",
        b"\x1b[3d\x1b[M\x1b[4;1H43  STUCK\x1b[?25l",
    ),
    (
        "The end, with a line lost",
        b"\x1b[6;1\n\nLINE LOST\x08\x7f\x1b[2 A\x1b[7;3",
    ),
];
