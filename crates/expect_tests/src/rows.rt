//! What the calls are given, and what is wanted of them, worked out by hand.

/// A pattern, a text, and whether it is met: up to the end of a word, `*` within one word.
pub(crate) const PATTERNS: &str = "\
4>f active-source => 4>f active-source 1.0.0.0 ok by p1 out - => met
4>f active-source 1.0.0.0 ok by p1 out - => 4>f active-source 1.0.0.0 ok by p1 out - => met
4>f active-sour => 4>f active-source 1.0.0.0 ok by p1 out - => not
4>0 play => 4>0 play-x ack by p1 out - => not
4>0 play => 4>0 pla => not
*>f active-source => 8>f active-source 2.0.0.0 ok by p2 out - => met
*>f active-source => 8>0 image-view-on ack by p2 out - => not
*>f active-source 1.* ok => 4>f active-source 1.2.0.0 ok by p1 out - => met
*>f active-source 1.* ok => 4>f active-source 2.0.0.0 ok by p1 out - => not
4>0 image-view-on * by p1 => 4>0 image-view-on nack by p1 out - => met
4>0 * by => 4>0 play forward ack by p1 out - => not
4>0 * * ack => 4>0 play forward ack by p1 out - => met
4>0 set-osd-name \"a  b\" => 4>0 set-osd-name \"a  b\" ack by p1 out - => met
* => 4>4 nack by p1 out - => met
silent => silent 1000001001 by p1 out - => met
short => silent 0 by p1 out - => not
*a*b*c*d => 1a2b3c4d by p1 => met";

/// Scripts of two lines, between `|`, for the topology below, and the first line at fault, with its word at fault: its number from
/// 0, or that which a missing word would have.
pub(crate) const FAULTS: &str = "\
at 5 press p1 play|end 10 => none
label a at 5 press p1 play|expect within 10 of a short => none
label a at 5 press p1 play|expect once within 10 of a * play => none
label a at 5 press p1 play|label b expect none within 10 of a short => none
label a at 5 press p1 play|expect refused a not-for-kind => none
expect from 1 to 1 short|end 10 => none
at 5 press p1 play|expect => line 2: word at 1
at 5 press p1 play|expect none => line 2: word at 2
at 5 press p1 play|expect once 5 of a short => line 2: word at 2
at 5 press p1 play|expect within 10 of a => line 2: word at 5
at 5 press p1 play|expect once from 1 to 2 => line 2: word at 6
at 5 press p1 play|expect within 10 from a short => line 2: word at 3
at 5 press p1 play|expect none within 10 to a short => line 2: word at 4
at 5 press p1 play|expect from 1 of 2 short => line 2: word at 3
at 5 press p1 play|expect from 1 of => line 2: word at 3
at 5 press p1 play|expect from 1 to => line 2: word at 4
at 5 press p1 play|expect never from 1 to 2 short => line 2: word at 1
at 5 press p1 play|expect never from 1 to 2 *a*b*c*d* => line 2: word at 1
at 5 press p1 play|expect at most 6 from 1 to 2 short => none
label a at 5 press p1 play|label b expect at least 1 within 10 of a short => none
at 5 press p1 play|expect exactly 0 from 1 to 2 short => none
at 5 press p1 play|expect at most 0 from 1 to 2 short => none
at 5 press p1 play|expect at most 18446744073709551615 from 1 to 2 short => none
at 5 press p1 play|expect exactly => line 2: word at 2
at 5 press p1 play|expect at => line 2: word at 2
at 5 press p1 play|expect at last 6 from 1 to 2 short => line 2: word at 2
at 5 press p1 play|expect at most => line 2: word at 3
at 5 press p1 play|label b expect at least => line 2: word at 5
at 5 press p1 play|expect at most 6 => line 2: word at 4
at 5 press p1 play|expect exactly 6 to 1 of 2 short => line 2: word at 3
at 5 press p1 play|expect at most 6 from 1 to 2 => line 2: word at 8
at 5 press p1 play|expect at most x from 1 of 2 short => line 2: word at 6
at 5 press p1 play|expect at most x from 1 to y *a*b*c*d* => line 2: word at 8
at 5 press p1 play|expect at most x from 1 to y short => line 2: number at 3
at 5 press p1 play|expect exactly 06 from 2 to 1 short => line 2: number at 2
at 5 press p1 play|expect at least 0 from 1 to 2 short => line 2: number at 3
at 5 press p1 play|label b expect at most 18446744073709551616 from 1 to 2 short => line 2: number at 5
at 5 press p1 play|expect at most 6 from 1 to y short => line 2: number at 7
at 5 press p1 play|expect at most 6 within 1 of a short => line 2: label at 7
at 5 press p1 play|expect exactly 6 from 2 to 1 short => line 2: order at 6
at 5 press p1 play|expect at most 6 from 1 to 2 4>f active_source => line 2: pattern at 9
at 5 press p1 play|expect no-remark => none
at 5 press p1 play|label b expect no-remark free 9 => none
at 5 press p1 play|expect no-remark  => line 2: word at 2
at 5 press p1 play|expect no-remark *a*b*c*d* => line 2: word at 2
at 5 press p1 play|expect no-remark fre => line 2: pattern at 2
at 5 press p1 play|label b expect no-remark attempt => line 2: pattern at 4
at 5 press p1 play|label b expect => line 2: word at 3
at 5 press p1 play|label b expect never from 1 to 2 short => line 2: word at 3
at 5 press p1 play|expect refused => line 2: word at 2
at 5 press p1 play|expect refused a => line 2: pattern at 2
at 5 press p1 play|label b expect refused a => line 2: pattern at 4
at 5 press p1 play|expect refused not-for-kind => none
label a at 5 press p1 play|label b expect refused not-for-kind => none
at 5 press p1 play|expect refused loop|expect refused loop => line 3: label at 2
at 5 press p1 play||expect refused loop => line 3: label at 2
at 5 press p1 play|# here|expect refused loop => line 3: label at 2
pulse 5 100|label b expect refused a => line 2: label at 4
expect refused loop|at 5 press p1 play => line 1: label at 2
expect refused loop => line 1: label at 2
at 5 press p1 play|expect refused a b c => line 2: word at 4
at 5 press p1 play|label b expect refused a b c => line 2: word at 6
at 5 press p1 play|expect from 1 to 2 *a*b*c*d* => line 2: word at 5
at 5 press p1 play|expect from x to 2 *a*b*c*d* => line 2: word at 5
at 5 press p1 play|label b expect none from 1 to 2 4>0 *a*b*c*d* => line 2: word at 8
at 5 press p1 play|expect from 1 to 2  => line 2: word at 5
at 5 press p1 play|label a => line 2: word at 2
at 5 press p1 play|expect from 01 to 2 short => line 2: number at 2
at 5 press p1 play|expect from 1 to x short => line 2: number at 4
at 5 press p1 play|expect once from 1 to 02 short => line 2: number at 5
at 5 press p1 play|expect within -1 of a short => line 2: number at 2
at 5 press p1 play|label b expect none within -1 of a short => line 2: number at 5
at 5 press p1 play|expect within 1 of a short => line 2: label at 4
expect within 1 of a short|label a at 5 press p1 play => line 1: label at 4
label a at 5 press p1 play|label a at 6 press p1 play => line 2: label at 1
at 5 press p1 play|label  at 6 press p1 play => line 2: label at 1
label a expect from 1 to 2 short|expect refused a off-wire => line 2: label at 2
label a expect from 1 to 2 short|label b expect refused a off-wire => line 2: label at 4
label a expect within 1 of a short|end 10 => line 1: label at 6
label a expect once within 1 of a short|end 10 => line 1: label at 7
at 5 press p1 play|expect from 2 to 1 short => line 2: order at 4
at 5 press p1 play|expect none from 2 to 1 short => line 2: order at 5
expect from 2 to 1 short|expect => line 1: order at 4
expect state 10 tv on|end 10 => none
end 10|label a expect state 0 p1 player 4 => none
end 10|expect state => line 2: word at 2
end 10|expect state 5 => line 2: word at 3
end 10|expect state 5 tv => line 2: word at 4
end 10|expect state 5 tv  => line 2: word at 4
end 10|expect state 5 tv  on => line 2: word at 4
end 10|label a expect state 5 tv tv 0  on => line 2: word at 8
end 10|expect state x p2 => line 2: word at 4
end 10|expect state 5 tv not => line 2: word at 5
end 10|expect state 5 tv not  => line 2: word at 5
end 10|label a expect state 5 tv not => line 2: word at 7
end 10|expect state 5 tv not on => none
end 10|expect state 5 tv on not => line 2: pattern at 5
end 10|expect state 5 tv not not => line 2: pattern at 5
end 10|expect state 5 tv power=on => line 2: pattern at 4
end 10|expect state 5 tv power=onn => line 2: pattern at 4
end 10|expect state 5 tv on active= => line 2: pattern at 5
end 10|expect state 5 tv active=1.2 => line 2: pattern at 4
end 10|label a expect state 5 tv not on standby=on => line 2: pattern at 8
end 10|expect state 11 tv nonsense => line 2: order at 2
end 10|expect state 5 p2 nonsense => line 2: name at 3
end 10|expect state 5 tv 4+8 -+- a+- combo - f => none
end 10|expect state 5 tv 4+8 -+9 => line 2: pattern at 5
end 10|expect state 5 tv not volume=020 => line 2: pattern at 5
end 10|expect state 5 tv volume=20 queue=00 => line 2: pattern at 5
end 10|expect state 5 tv sel=007 => line 2: pattern at 4
end 10|label a expect state 5 tv lang=200 => line 2: pattern at 6
end 10|expect state 5 tv volume=18446744073709551616 => line 2: pattern at 4
end 10|expect state x p2 on => line 2: number at 2
end 10|expect state 05 tv on => line 2: number at 2
end 10|expect state 1000000000001 p2 on => line 2: number at 2
end 10|expect state 1000000000000 tv on => line 2: order at 2
end 10|expect state 11 p2 on => line 2: name at 3
end 10|expect state 5 plug on => line 2: name at 3
end 10|label  expect state 10 p2 on => line 2: name at 5
end 10|label  expect state 11 tv on => line 2: label at 1
end 10|expect state 11 tv on => line 2: order at 2
label a end 10|expect state 11 tv on => line 1: word at 2
end 10|label a expect state 11 tv on => line 2: order at 4
expect state 11 tv on|end 10 => line 1: order at 2
label a expect state 5 tv on|expect refused a off-wire => line 2: label at 2
label a expect state 5 tv on|expect within 5 of a short => none
label g pulse 5 100|expect within 10 of g short => none
label g pin 5 0|expect within 10 of g short => none
label g pin 5 0|expect refused g off-wire => line 2: label at 2
label g pulse 5 100|expect refused g off-wire => line 2: label at 2
label g pulse 5 100|label g at 7 press p1 play => line 2: label at 1
label g pull 5 100|expect within 10 of g short => none
label g pull 5 100|expect refused g off-wire => line 2: label at 2
label g end 10|end 10 => line 1: word at 2
label g # remark|end 10 => line 1: word at 2
label g |end 10 => line 1: word at 2
label g attic|end 10 => line 1: word at 2
label  # remark|end 10 => line 1: word at 2
# remark|label g at 5 press p1 play => none
expect from 0 to 18446744073709551615 short|end 10 => none
expect from 0 to 18446744073709551616 short|end 10 => line 1: number at 4
expect none from 18446744073709551616 to 18446744073709551617 short|end 10 => line 1: number at 3
expect from 0 to 184467440737095516150 short|end 10 => line 1: number at 4
label a at 5 press p1 play|expect within 18446744073709551615 of a short => none
label a at 5 press p1 play|expect within 18446744073709551616 of a short => line 2: number at 2
expect state 18446744073709551616 tv on|end 10 => line 1: number at 2
expect from 1 to 2 short |end 10 => line 1: word at 5
expect once from 1 to 2 4>0 image-view-on  |end 10 => line 1: word at 6
expect from 1 to 2  short|end 10 => line 1: word at 5
expect from 1 to 2 4>0 set-osd-name \"a  b\"|end 10 => none
expect from 1 to 2 film|end 10 => line 1: pattern at 5
expect from 1 to 2 complete 4>f active-source|end 10 => line 1: pattern at 5
expect none from 1 to 2 4>F active-source|end 10 => line 1: pattern at 6
expect none from 1 to 2 4>f active-sourc|end 10 => line 1: pattern at 7
expect none from 1 to 2 complete 4>f active-source 1.0.0.0|end 10 => line 1: pattern at 6
expect none from 1 to 2 4>f active_source|end 10 => line 1: pattern at 7
expect once from 1 to 2 4>f active_source 1.0.0.0|end 10 => line 1: pattern at 7
expect none from 1 to 2 4>0 active-source|end 10 => none
expect from 1 to 2 4>f active-source 1.0.0.0 ack|end 10 => line 1: pattern at 8
at 5 press p1 play|label b expect none from 1 to 2 4>0 image-view-on ok => line 2: pattern at 10
expect from 1 to 2 4>0 report-power-status onn|end 10 => line 1: pattern at 7
expect from 1 to 2 4>f  active-source|end 10 => line 1: pattern at 6
expect from 1 to 2 short 2|end 10 => line 1: pattern at 6
expect from 1 to 2 4>f active-source ok|end 10 => line 1: pattern at 7
expect from 1 to 2 4>0 active-source 1.0.0.0 ack|end 10 => none
expect from 1 to 2 4>f active-source :1000 ok|end 10 => line 1: pattern at 7
expect from 1 to 2 4>f active-source :10 ok|end 10 => none
expect from 1 to 2 4>0 image-view-on : ack|end 10 => line 1: pattern at 7
expect none from 1 to 2 4>0 image-view-on ack by P1|end 10 => line 1: pattern at 10
expect from 1 to 2 4>4 nack by @p1|end 10 => line 1: pattern at 8
expect from 1 to 2 4>4 nack by p2|end 10 => line 1: pattern at 8
expect from 1 to 2 4>4 nack by p1,tv|end 10 => line 1: pattern at 8
expect from 1 to 2 4>4 nack by tv,p1|end 10 => none
expect from 1 to 2 4>4 nack by tv out p3@2|end 10 => line 1: pattern at 10
expect from 1 to 2 4>4 nack by tv out p1@161|end 10 => line 1: pattern at 10
expect from 1 to 2 4>4 nack by tv out p1@2|end 10 => none
expect from 1 to 2 open 00|end 10 => line 1: pattern at 5
at 5 press p1 play|expect within 1 of a film => line 2: label at 4
expect from 2 to 1 film|end 10 => line 1: order at 4
label a at 5 press p1 play|expect refused a nonsense => line 2: pattern at 3
label a at 5 press p1 play|label b expect refused a not-for-kinds => line 2: pattern at 5
label a at 5 press p1 play|expect refused b nonsense => line 2: label at 2
label a at 5 press p1 play|expect refused a no-address => none";

/// A line, and what is left of it in the plain script.
pub(crate) const PLAIN: &str = "\
at 5 press p1 play => at 5 press p1 play
label a at 5 press p1 play => at 5 press p1 play
label a pulse 5 10 => pulse 5 10
label a pin 5 0 => pin 5 0
label a pull 5 10 => pull 5 10
label a expect from 1 to 2 short => 
expect from 1 to 2 short => 
expect state 5 tv on => 
expected => expected
# expect => # expect
label => label
label a => 
label a label b => label b
end 10 => end 10";

/// A time, the lines of a plain script between `|`, and the lines of the script that ends then.
pub(crate) const CUTS: &str = "\
5 at 4 press p1 play|end 9 => at 4 press p1 play|end 5
5 at 5 press p1 play|end 9 => |end 5
5 at 6 press p1 play|end 9 => |end 5
0 at 0 press p1 play|end 9 => |end 0
5 pulse 7 10|end 9 => pulse 7 10|end 5
5 pin 7 0|end 9 => pin 7 0|end 5
5 pull 7 10|end 9 => pull 7 10|end 5
5 # at 7|end 9 => # at 7|end 5
5 |end 9|# end 7 => |end 5|# end 7
5 end 5 => end 5
1000000000000 at 7 press p1 play|end 1000000000000 => at 7 press p1 play|end 1000000000000
5 attic|ending => attic|ending";

pub(crate) const TOPOLOGY: &str = "\
device tv tv 4
device p1 player 0
plug p1 tv 1
";

/// Refusals: a topology and a script between `|`.
pub(crate) const REFUSALS: &str = "\
device tv tv 4|expect|end 10 => script line 1: word
device tv tv 4|expect from 2 to 1 short|at 5 press p1 play|end 10 => script line 2: name
device tv tv 4|label a|expect from 0 to 9 short|# press|label b at 5 press tv play|label c at 7 press p1 play|end 10 => script line 5: name
device tv x 4|expect|end 10 => topology line 1: word
device tv tv 4|expect from 1 to 2 short => script line 2: end
device tv tv 4|expect state 1 amp on|end 10 => script line 1: name";
