//! The key table, a line for each key and kind.

pub(crate) const PRESSES: &str = "\
player+recorder+combo | power=off | press play | power=on deck=11 active=1000 path=1000 | @0 04, @f 82 10 00
player+recorder+combo | sub=3 | press play | deck=11 active=1000 path=1000 | @0 04, @f 82 10 00, @3 1b 11
player+recorder+combo | deck=19 sub=3 | press play | active=1000 path=1000 | @0 04, @f 82 10 00
player+recorder+combo | deck=11 sub=3 | press play | active=1000 path=1000 | @0 04, @f 82 10 00
player+recorder+combo | deck=11 sub=3 | press stop | deck=1a | @3 1b 1a
player+recorder+combo | deck=19 sub=3 | press stop | - | -
player+recorder+combo | sub=3 | press eject | deck=19 | @3 1b 19
player+recorder+combo | deck=19 sub=3 | press eject | - | -
player+recorder+combo | deck=19 sub=3 | press load | deck=1a | @3 1b 1a
player+recorder+combo | deck=11 sub=3 | press load | - | -
player+recorder+combo | - | press menu | menu=on | @0 8e 00
player+recorder+combo | menu=on | press menu | menu=off | @0 8e 01
tv+amp+player+recorder+combo+switch | power=off | press power | power=on | -
tv | held=44 | press power | power=off held=- | @f 36
amp | held=44 | press power | power=off held=- | -
switch | - | press power | power=off | -
player+recorder+combo | deck=11 | press power | power=off deck=1a | -
player+recorder+combo | active=1000 deck=11 sub=3 menu=on held=44 | press power | power=off active=- deck=1a sub=- menu=off held=- | @0 9d 10 00
player+recorder+combo | active=1100 deck=19 | press power | power=off | -
amp | active=1000 | press power | power=off | -
tv | - | press watch 1200 | path=1200 | @f 86 12 00
switch | - | press port 2 | sel=2 | ff 80 11 00 12 00
switch | sel=2 | press port 2 | - | -
switch | sel=3 | press port 1 | sel=1 | ff 80 13 00 11 00
tv | path=1200 | press audio on | - | @5 70 12 00
tv | - | press audio on | - | @5 70 00 00
tv | path=1200 | press audio off | - | @5 70
tv | - | press arc on | - | @5 c3
tv | - | press arc off | - | @5 c4
amp | - | press arc on | - | @0 c0
amp | - | press arc off | - | @0 c5
tv | audio=on | press volume-up | - | @5 44 41
tv | audio=on | press volume-down | - | @5 44 42
tv | audio=on | press mute | - | @5 44 43
tv+amp | - | press volume-up | volume=21 | -
tv+amp | volume=100 | press volume-up | - | -
tv+amp | - | press volume-down | volume=19 | -
tv+amp | volume=0 | press volume-down | - | -
tv+amp | - | press mute | mute=on | -
tv+amp | mute=on | press mute | mute=off | -
amp | audio=on | press volume-up | volume=21 | @0 7a 15
amp | audio=on | press volume-down | volume=19 | @0 7a 13
amp | audio=on | press mute | mute=on | @0 7a 94
tv | - | press language 667261 | lang=667261 | @f 32 66 72 61
tv | - | press remote 4 44 | - | @4 44 44
tv | - | press remote e 6d | - | @e 44 6d";

pub(crate) const RELEASES: &str = "\
player+recorder+combo | - | release play | - | -
player+recorder+combo | - | release stop | - | -
player+recorder+combo | - | release eject | - | -
player+recorder+combo | - | release load | - | -
player+recorder+combo | - | release menu | - | -
tv+amp+player+recorder+combo+switch | - | release power | - | -
tv | - | release watch 1200 | - | -
switch | - | release port 2 | - | -
tv | - | release audio on | - | -
tv | - | release audio off | - | -
tv+amp | - | release arc on | - | -
tv+amp | - | release arc off | - | -
tv | audio=on | release volume-up | - | @5 45
tv | audio=on | release volume-down | - | @5 45
tv | audio=on | release mute | - | @5 45
tv | - | release volume-up | - | -
amp | audio=on | release volume-up | - | -
amp | audio=on | release mute | - | -
tv | - | release language 667261 | - | -
tv | - | release remote 4 44 | - | @4 45";

pub(crate) const REFUSED: &str = "\
tv+amp+switch | - | press play | refused | -
tv+amp+switch | - | release play | refused | -
tv+amp+switch | - | press stop | refused | -
tv+amp+switch | - | press eject | refused | -
tv+amp+switch | - | press load | refused | -
tv+amp+switch | - | press menu | refused | -
tv+amp+switch | - | release menu | refused | -
amp+player+recorder+combo+switch | - | press watch 1200 | refused | -
amp+player+recorder+combo+switch | - | release watch 1200 | refused | -
tv+amp+player+recorder+combo | - | press port 1 | refused | -
switch | - | press port 0 | refused | -
switch | - | press port 4 | refused | -
switch | - | release port 4 | refused | -
amp+player+recorder+combo+switch | - | press audio on | refused | -
amp+player+recorder+combo+switch | - | press audio off | refused | -
player+recorder+combo+switch | - | press arc on | refused | -
player+recorder+combo+switch | - | press arc off | refused | -
player+recorder+combo+switch | - | press volume-up | refused | -
player+recorder+combo+switch | - | press volume-down | refused | -
player+recorder+combo+switch | - | press mute | refused | -
player+recorder+combo+switch | - | release mute | refused | -
amp+player+recorder+combo+switch | - | press language 667261 | refused | -
amp+player+recorder+combo+switch | - | press remote 4 44 | refused | -
amp+player+recorder+combo+switch | - | release remote 4 44 | refused | -";
