//! What `--help` reports of `edid`.

pub const EDID_ABOUT: &str = "Writes an EDID as text, or a text's EDID in hex";

/// The flags of `edid`, each with its help.
pub const EDID_FLAGS: &[(&str, &str)] = &[
    (
        "text",
        "Reads an EDID's text, and prints its bytes as one line of hex",
    ),
    (
        "words",
        "Reads an EDID's text with payloads in words, as `video 16* 4 3`",
    ),
    (
        "hex",
        "Reads a hex dump of the EDID, as xxd, hexdump, od or edid-decode print it",
    ),
    ("raw", "Prints the EDID's bytes as they are"),
    (
        "check",
        "Prints the rules that the EDID breaks; status 5 where one is a failure",
    ),
    (
        "meaning",
        "Prints the EDID's text, and below each line what it means",
    ),
    ("only-address", "Prints the physical address alone"),
    (
        "ddc",
        "Prints what a reading over DDC gives, segment by segment",
    ),
    (
        "room",
        "Prints how many bytes of each block are used, and for what there is room",
    ),
    (
        "eld",
        "Prints its ELD, which a sound driver reads, as one line of hex",
    ),
    (
        "from-eld",
        "Reads an ELD's bytes, and prints what its fields say",
    ),
    (
        "json",
        "Prints the fields as objects of JSON, of an ELD with --eld and --from-eld, or with --check, --room, --infoframe and --diff each line",
    ),
    (
        "merge",
        "Reads a display's EDID and a receiver's, and prints what the receiver answers with",
    ),
    (
        "diff",
        "Reads two EDIDs, and prints where they differ; status 1 where they do",
    ),
    (
        "eeodb",
        "Goes by the HDMI Forum's count of extensions, in place of byte 126",
    ),
    (
        "as-source",
        "Reads the EDID as a source does, which mends some and passes over others",
    ),
    (
        "mend",
        "Sets its checksums right, and the count of its extensions",
    ),
];

/// Those that take a value, with what stands for it.
pub const EDID_VALUES: &[(&str, &str, &str)] = &[
    (
        "address",
        "ADDRESS",
        "Puts this physical address, as 1.0.0.0, into the EDID",
    ),
    (
        "port",
        "NUMBER",
        "Prints the EDID that the device passes on in this port, 1 to 15",
    ),
    (
        "below",
        "KIND",
        "With --port: the device is an amplifier, amp",
    ),
    (
        "speakers",
        "WHOSE",
        "With --below: the speakers are the amplifier's too, own",
    ),
    (
        "rows",
        "ROWS",
        "With --merge: whose blocks are taken, as video=keep,audio=own",
    ),
    (
        "infoframe",
        "HEX",
        "Prints what this InfoFrame says, and what of it the display does not offer; status 1 where there is such",
    ),
    (
        "as",
        "FORM",
        "Prints the EDID as c, an array, xml, a file of Quantum Data's tools, or firmware, a kernel's file",
    ),
    (
        "nth",
        "NUMBER",
        "With --hex: reads this EDID of several, from 1",
    ),
];

pub const EDID_HELP: &str = "\
The input is an EDID of 128, 256, 384 or 512 bytes: a base block of E-EDID 1.3 or 1.4, and up to
three extension blocks. The output is its text, a line for each part. With --text it is the other
way round. Each EDID has one text, and nothing of a block is lost: a part that fits no form is kept
in hex, after `raw` or `ext`. A FILE may hold the bytes, a hex dump or the text: its first bytes say which.

An example of a text. There are always eight `standard` lines, and four lines for the descriptors:
  edid 1.3
  maker SAM
  product 258
  serial 1
  made 10 2011                         week and year
  input 80
  size 52 29                           centimetres
  gamma 120
  features 0a
  chroma 655 338 307 614 154 61 320 337
  established 000000
  standard 256 0 60                    width, aspect bits, rate; `standard unused` for none
  timing 14850 1920 280 1080 45 88 44 4 5 520 290 0 0 1e
  name \"LOUNGE TV 001\"
  dummy
  dummy
  cta f1                               an extension, of three at most: flags, blocks, timings, tail
  video 900403
  hdmi 0.0.0.0 -                       the physical address, and what follows it
  tail -
The remarks to the right are no part of the text.

To see an EDID, and to make the bytes again:
  ./hdminet edid < tv.edid > tv.txt
  ./hdminet edid --text --raw < tv.txt > tv.edid

With --words it is a text in which these lines may have words in place of hex or numbers, which they stand for:
  video 16* 4 3                        video codes, `*` after a native one
  audio pcm 2 32,44.1,48 16,20,24      format, channels, kHz, and sizes, kbit/s, or a byte in hex
  speakers FL/FR LFE FC                in this order
  hdmi 1.0.0.0 ai 36-bit tmds 300 latency 20 8
                                       in this order: ai 30-bit 36-bit 48-bit y444 dvi-dual, MHz,
                                       graphics-content photo-content cinema-content game-content,
                                       latency and interlaced-latency of video and sound in ms,
                                       3d-present vic-1 vic-2 vic-3 vic-4
  timing vic 16 520 290                a video code, and perhaps the image's sides in mm
  timing dmt 52 520 290                VESA's monitor timing of this identifier, in hex
  timing cvt 2560 1440 75 600 340      pixels, lines and Hz by VESA's formula cvt, cvt-rb or gtf, and perhaps the sides
One word of hex digits, two for each byte, is hex: `video 16` is code 22. Lines that begin with a space, as
--meaning prints them, are passed over. The same text, in hex:
  ./hdminet edid --words --raw < tv.txt | ./hdminet edid

With --hex the input is a hex dump: plain digits, or as `xxd`, `hexdump`, `od`, `i2cdump`, `edid-decode` and
PowerShell print it, or a list of bytes, as programs, registries and JSON have it, or Intel HEX, or with
other text around, as `xrandr --prop` has it. It begins at the first line whose bytes are the header
00 ff ff ff ff ff ff 00, and may be what each of the other flags reads. Of a text with several EDIDs --nth N
takes another than the first, and standard error says how many there are:
  xrandr --prop | ./hdminet edid --hex
  xrandr --prop | ./hdminet edid --hex --nth 2

With --meaning an indented line or more below each line of the text tells what it means:
  video 900403
    16 native: 1920x1080 at 60 Hz 16:9
    4: 1280x720 at 60 Hz 16:9
    3: 720x480 at 60 Hz 16:9

With --check the output is a line for each rule that the EDID breaks, `fail RULE`, `warn RULE`, or
`fail timing N RULE` with detailed timings counted from 1. Status 5 is for a rule that fails:
  ./hdminet edid --check < tv.edid         fail srgb
                                           warn overscan
With --check --json each is an object of JSON, whose first field is that line; then come its type, finding, and
its severity, the number of the timing or null, and the rule.

With --json alone the output is an object for each part of the EDID, of the type part, a section, a descriptor,
a data block or a timing, and after it one for each of its fields: the block of 128 bytes, the byte and the bits
where it stands, its name in the standard's words, its value, what that says, and what is found of it, null,
reserved or left.

With --address the EDID has that physical address, and with --port the address of that port of the
device: the EDID that a device there reads. Below an amplifier it has the amplifier's audio:
  ./hdminet edid --port 2 --below amp --raw < tv.edid > player.edid
  ./hdminet edid --only-address < player.edid

With --speakers own it has the amplifier's speakers too, FL FR, LFE, FC, BL BR and RLC RRC, for its eight
channels. Where they have no room the EDID is refused as `edid: no-room`.

With --merge the input is a display's EDID and after it a receiver's own, or with --hex their dumps, and
the EDID is the one that the receiver answers with. --rows says whose blocks of a kind are taken: keep, the
display's; own, the receiver's; and, the bits that both have; least, these and the lesser clock; link, the
display's formats that the link of both carries, which holds too where no row is given and the receiver has
no HDMI Forum's block:
  product own      keep, own               maker, product, serial number, date and name
  video keep       keep, own, link         video codes, formats in 4:2:0
  audio own        keep, own
  speakers own     keep, own, and
  hdmi least       keep, own, least        the address is the receiver's, but with keep
  forum least      keep, own, least        the HDMI Forum's block
  capability keep  keep, own, and          of video
  colorimetry and  keep, own, and
  hdr and          keep, own, and          its luminances are the display's
  maker-video keep  keep, own              as that of Dolby Vision, and dynamic HDR
  maker-audio own  keep, own               as that of Dolby, rooms and places of speakers
  other keep       keep, own
The timings of the extension stay as far as they have room. The other extensions are the display's. A name
or serial number of the receiver's that has no place is named on standard error:
  cat tv.edid receiver.edid | ./hdminet edid --merge --raw > answer.edid
  cat tv.edid receiver.edid | ./hdminet edid --merge --rows video=own,hdr=keep

With --eeodb the extensions are as many as the HDMI Forum's override says, HF-EEODB, where block 1 begins
with it (E2 78 and the count): televisions with HDMI 2.1 have 1 in byte 126 and three extensions. The text
is that of all blocks, and bytes that are written keep byte 126; those of a text have 1 there.

With --as-source what Linux does not ask of an EDID is mended, and what it passes over is left out, with a
line on standard error for each: two wrong bytes of the header, a revision of version 1 that is not 3 or 4,
letters of the maker, bytes after the last extension that is counted, an extension with a wrong checksum
(mended where it is of CTA-861, else left out), and extensions after the third. The override counts too, where
it is not 0 and its block is there whole; in what is written it counts the extensions that are left:
  ./hdminet edid --as-source --raw < old.edid > mended.edid

With --mend the last byte of each block is the one that makes the sum of its bytes 0 modulo 256, and byte 126
counts the blocks after the first; no other byte changes. Standard error has a line for each byte that is set
right. With --eeodb too an override that block 1 begins with counts them, and byte 126 is 1:
  ./hdminet edid --mend --raw < edited.edid > tv.edid

With --room the output is a line for each block: its bytes that are used and left, and for what there is room.
Of the base block these are unused descriptors, standard timings and established timings; of a CTA block the
bytes of its data blocks, its timings and its tail, and how many timings the bytes left have room for. As many
bytes are left for data blocks, each with its first byte:
  block 0 base used 96 left 32 free-descriptors 1 free-standards 7 free-established 14
  block 1 cta blocks 18 timings 0 tail 0 used 23 left 105 free-timings 5

With --ddc the output is what a reading over DDC gives: for each segment a line `segment N` and sixteen
rows of an offset and sixteen bytes, FF where a block is missing.

With --diff the output has a line for each difference of two EDIDs. With --as c, --as xml or --as firmware it is
the EDID as an array of C, as a file of edid-decode, or as its bytes. With --eld it is the ELD that a sound
driver makes of the EDID; with --from-eld the input is an ELD. With --infoframe HEX it is what this InfoFrame
says, and what of it the display does not offer (docs/edid.md has the lines):
  ./hdminet edid --diff before.edid after.edid
  ./hdminet edid --as c tv.edid > tv.h
  ./hdminet edid --infoframe 82020d2710280010000000000000000000 tv.edid

Faults: `edid: CAUSE` with length, count (byte 126 does not tell the extensions), base header, base
checksum, base revision, base maker or ext N checksum, and no-hdmi-block where there is no place for an
address; `dump: none`, `dump: cut N` or `dump: long N` with --hex, where no line begins an EDID, or line N
does not go on with it, or goes past 512 bytes; `merge: CAUSE` with display or receiver and the cause of that
EDID, or one-cta (not one extension has data blocks), or long (they have no room); `edid: a rule fails` after the rules of --check; with --text or
--words `text: syntax N` or `text: field N`, for the first line that no EDID's text has there. Nothing is written then.

Exit status: 0 done; 1 input refused, EDIDs that differ with --diff, or an InfoFrame that is ill-formed or not
offered with --infoframe; 2 command line refused; 3 a read or write fault, or input past 1048576 bytes; 4 no
memory; 5 a rule fails.";
