//! Captures, and what they are read as.

/// `FORM:SIGNAL TEXT => EDGES`. In a text `|` ends a line, `^` is a tab, `~` a carriage return, `HEAD` the definitions of a wire
/// CEC, `PINS` the comments of a pin file that starts at 100 s. `12000f` is a fall, `15700r` a rise. `auto` goes by the first
/// line, `smooth:N` leaves out what is shorter than N of an edge file, `scale:N` multiplies its times by N ten-thousandths, `lost` has
/// the lines before which events were lost, and `idle` the readings of an edge file from idle on. A fault has the number of its word at fault after it, from 0.
pub(crate) const ROWS: &str = "\
# A wire that falls and rises; x and z are high, in either case; a start at low.
vcd: HEAD|#0|1!|#12000|0!|#15700|1!|#20000 => 12000f 15700r end 20000
vcd: HEAD|#0|x!|#5|0!|#9|z!|#12|0!|#15|X!|#18|0!|#20|Z!|#30 => 5f 9r 12f 15r 18f 20r end 30
vcd: HEAD|#0|0!|#7|1!|#9 => 0f 7r end 9
# Words are parted by ends of lines, too.
vcd: $timescale|1|us|$end|$var|wire 1|! CEC|$end|$enddefinitions|$end|#0|1!|#3|0!|#9|1!|#12 => 3f 9r end 12
# Vectors, real numbers and strings, in either case; what other keywords tell among changes is passed over.
vcd: HEAD|#0|sLOW !|#2|S0 $|#5|B0 !|#6|R1.5 !|#7|B1 !|#9 => 5f 7r end 9
vcd: HEAD|#0|$dumpall|1!|$end|#5|$dumpon|0!|$end|#6|$comment 1! $end|#9 => 5f end 9
# Other wires, vectors and real numbers are passed over; a vector of one bit is a value. The wire goes by its name.
vcd: $timescale 1us $end|$var wire 8 # BUS [7:0] $end|$var wire 1 ! CEC $end|$var wire 1 % SCL $end|$enddefinitions $end|#0|b10101010 #|0%|#7|b0 !|r1.5 $|#8|b1 !|#9 => 7f 8r end 9
vcd:SCL $timescale 1us $end|$var wire 8 # BUS [7:0] $end|$var wire 1 ! CEC $end|$var wire 1 % SCL $end|$enddefinitions $end|#0|b10101010 #|0%|#7|b0 !|r1.5 $|#8|b1 !|#9 => 0f end 9
vcd:SDA HEAD => line 3: signal 0
vcd: $timescale 1 us $end|$var wire 2 ! CEC $end|$enddefinitions $end => line 3: signal 0
# Units from seconds to femtoseconds: a tick is rounded up to whole microseconds.
vcd: $timescale 1 s $end|$var wire 1 ! CEC $end|$enddefinitions $end|#1|0!|#2|1!|#3 => 1000000f 2000000r end 3000000
vcd: $timescale 1 ms $end|$var wire 1 ! CEC $end|$enddefinitions $end|#12|0!|#15|1!|#20 => 12000f 15000r end 20000
vcd: $timescale 10us $end|$var wire 1 ! CEC $end|$enddefinitions $end|#5|0!|#7|1!|#8 => 50f 70r end 80
vcd: $timescale 100 ns $end|$var wire 1 ! CEC $end|$enddefinitions $end|#1|0!|#11|1!|#20 => 1f 2r end 2
vcd: $timescale 1 ps $end|$var wire 1 ! CEC $end|$enddefinitions $end|#1000001|0!|#3000000|1!|#3000001 => 2f 3r end 4
vcd: $timescale 10 fs $end|$var wire 1 ! CEC $end|$enddefinitions $end|#100000000|0!|#100000001|1! => 1f 2r end 2
# A pulse of 300 ns that no first instant of a microsecond meets is gone.
vcd: $timescale 1 ns $end|$var wire 1 ! CEC $end|$enddefinitions $end|#1100|0!|#1400|1!|#5000 => end 5
# Of several changes in one microsecond the last counts, and a level that is told again is none.
vcd: HEAD|#5|0!|1!|#6|0!|0!|#9|1!|#9|0!|#12 => 6f end 12
# While dumping is off the wire is x; other sections are passed over.
vcd: HEAD|#0|$dumpvars|1!|$end|#10|0!|#20|$dumpoff|x!|$end|#30|$dumpon|0!|$end|#40|1!|#50 => 10f 20r 30f 40r end 50
vcd: HEAD|#0|$comment 0! $end|#5|0!|#6 => 5f end 6
vcd: HEAD|#5|0 !|#6|1 !|#7 => 5f 6r end 7
# Causes, with their lines and words; between two spaces stands an empty word.
vcd: HEAD|#0|q! => line 5: word 0
vcd: HEAD|#0|bogus => line 5: word 0
vcd: HEAD|#0|b ! => line 5: word 0
vcd: HEAD|#0|b012 ! => line 5: word 0
vcd: HEAD|#0|b01xzXZ $|#7|B0 !|#9 => 7f end 9
vcd: $timescale 1 us $end|$var wire 1 $end => line 2: word 3
vcd: $timescale 2 us $end => line 1: scale 1
vcd: $timescale 1 min $end => line 1: scale 2
vcd: $var wire 1 ! CEC $end|$enddefinitions $end => line 2: scale 0
vcd: $timescale 1 us $end|$var wire 1 ! CEC $end => line 3: end 0
vcd: HEAD|#01 => line 4: time 0
vcd: HEAD|#-1 => line 4: time 0
vcd: HEAD|#18446744073709551615 => line 4: time 0
vcd: HEAD|#2000000000001 => line 4: time 0
vcd: HEAD|#2000000000000 => end 2000000000000
vcd: HEAD|#5|#4 => line 5: order 0
vcd: HEAD|#0 1!  #5 q! => line 4: word 4
vcd: HEAD|#0^1!^#5~^#4 => line 4: order 4
vcd: HEAD|#1 1!|0! #2 $dumpall 1! $end #x => line 5: time 5
vcd:  $timescale 1us $end $var wire 1 ! => line 2: end 0
# As sigrok-cli 0.7.2 writes a dump (libsigrok 0.5.2): times and values on one line.
auto: META samplerate: 1000000|$date Wed Nov 25 11:16:34 2026 $end|$version libsigrok 0.5.2 $end|$comment|  Acquisition with 1/1 channels at 1 MHz|$end|$timescale 1 us $end|$scope module libsigrok $end|$var wire 1 ! CEC $end|$upscope $end|$enddefinitions $end|#0 1!|#12000 0!|#15700 1!|#16500 0!|#17100 1!|#30000 => 12000f 15700r 16500f 17100r end 30000
# As GTKWave 3.3.118 writes it (vcd2fst, fst2vcd): tabs, and the scale in three lines.
auto: $date|^Wed Nov 25 11:16:34 2026||$end|$version|^fstWriter|$end|$timescale|^1us|$end|$scope module hdmi $end|$var wire 1 ! CEC $end|$upscope $end|$enddefinitions $end|#0|$dumpvars|1!|$end|#12000|0!|#15700|1!|#16500|0!|#17100|1!|#30000 => 12000f 15700r 16500f 17100r end 30000
auto: $timescale 1 us $end~|$var wire 1 ! CEC $end~|$enddefinitions $end~|#3~|0!~|#9~ => 3f end 9
# As cec-ctl 1.22.1 stores pin events: the level 1 is told again after a message, other pins are passed over.
auto: PINS|100.000000000 1|100.012000000 0|100.015700000 1|100.030000000 1 => 12000f 15700r end 30000
pin: PINS|100.000000500 2|100.012000001 65536|100.015700000 65537|100.016000000 4|100.017000000 3 => 12001f 15700r end 17000
pin: PINS|99.999999999 0|100.001000000 1 => line 7: order 0
pin: PINS|100.000000000 0|100.001000000 1 => 0f 1000r end 1000
pin: PINS|100.000000000 5|100.012000000 0|100.013000000 65538|100.014000000 65539|100.015000000 65540|100.016000000 65541|100.017000000 2|100.018000000 3 => 12000f end 18000
pin: PINS|100.000000000 65542 => line 7: word 1
pin: PINS|100.000000000 65535 => line 7: word 1
# Without a start times are counted from 0: a file of a machine that has run for more than 23 days is late.
auto: # cec-ctl --store-pin|# version 1|81234.012000000 0|81234.015700000 1 => 81234012000f 81234015700r end 81234015700
pin: # cec-ctl --store-pin|# version 1|2000000.000000000 1 => end 2000000000000
pin: # cec-ctl --store-pin|# version 1|2000000.000000001 1 => line 3: late 0
pin: PINS|100.5 0 => line 7: word 0
pin: PINS|100.000000000 6 => line 7: word 1
pin: PINS|100.000000000 => line 7: word 1
pin: PINS|100.0000000000 1 => line 7: word 0
pin: PINS|100.5 6 => line 7: word 0
pin: PINS|100.000000000 1 => end 0
pin: PINS|100.000000000 1 1 => line 7: word 1
pin: PINS|2000101.000000000 1 => line 7: late 0
pin: PINS|100.000002000 0|100.000001000 1 => line 8: order 0
# As Saleae's Logic 2 exports channels: the end is 10,000 after the last row, or that row, where the level is told again.
auto: Time [s],Channel 0|0.000000000,1|0.012000000,0|0.015700000,1 => 12000f 15700r end 25700
csv:CEC Time [s],SCL,CEC|-0.5,1,1|-0.499,0,0|0.000,1,1 => 1000f 500000r end 510000
csv: Time [s],CEC|0,1|0.001,0|0.002,1|0.005,1 => 1000f 2000r end 5000
csv: Time[s], Channel 0~|0.0, 1~|0.001, 0~|0.0025, 1~ => 1000f 2500r end 12500
csv: Time,CEC|5,0|6,1 => 0f 1000000r end 1010000
csv: Time,CEC|0,1|0.0000001,0|0.0000011,1 => 1f 2r end 10002
csv: Time,CEC|0,1|2000000,0 => 2000000000000f end 2000000000000
csv:SDA Time [s],CEC|0,1 => line 1: signal 1
csv: Time [s] => line 1: signal 1
csv:  => line 1: signal 1
csv: Time,A|0,\"1\" => line 2: word 1
csv: Time,A|0, => line 2: word 1
csv: Time,A|0,2 => line 2: word 1
csv: Time,A|0.12345678901x,1 => line 2: word 0
csv: Time,A|1e-3,1 => line 2: word 0
csv: Time,A|1e-3,2 => line 2: word 0
csv: Time,A||0,1 => line 2: word 0
csv:B Time,A,B|0,1,1|0.1,0,x => line 3: word 2
csv:B Time,A,B|0,2,1|0.1,0 => line 3: word 2
csv: Time,A|1,1|0.9,0 => line 3: order 0
csv: Time,A|0,1|2000000.000001,0 => line 3: late 0
# As Saleae's Logic 1.2 exports channels: more decimals than nine, of which those after the ninth are cut.
auto: Time[s], Channel 0-CEC|0.000000000000000, 1|0.012000000000000, 0|0.015700000000000, 1 => 12000f 15700r end 25700
csv: Time,A|0,1|0.0000010009999,0|0.0000020009999,1 => 1f 2r end 10002
csv: Time,A|-0.0000000019,1|0.000000999,0 => 1f end 10001
# The unit of the times stands in the name of their column, as Logic 2 (`[s]`), DSView (`(s)`) and WaveForms (a space and `(s)`) write it.
auto: Time(s),CEC|0.000000000,1|0.012000000,0|0.015700000,1 => 12000f 15700r end 25700
csv: Time (s),DIO 0|0,1|0.012,0|0.0157,1 => 12000f 15700r end 25700
auto: Time [ms],CEC|0,1|12,0|15.7,1 => 12000f 15700r end 25700
auto: Time(us),CEC|0,1|12000,0|15700.0,1 => 12000f 15700r end 25700
auto: Time (ns),CEC|0,1|12000000,0|15700001,1 => 12000f 15701r end 25701
csv:B Time[MS],A, B|0,1,1|12,1,0|15.7,0,1 => 12000f 15700r end 25700
csv: \"Time [ms]\",\"CEC\"|0,1|12,0 => 12000f end 22000
csv: Time [µs],A|0,1|12000,0 => 12000f end 22000
csv: Time (μs),A|0,1|12000,0 => 12000f end 22000
csv: Time [ms],A|-500,1|-499,0|0,1 => 1000f 500000r end 510000
# Decimals are cut below a nanosecond, and what is left is rounded up.
csv: Time [ms],A|0,1|0.0010009,0|0.001001,1 => 1f 2r end 10002
csv: Time [us],A|0,1|1.0009,0|2.001,1 => 1f 3r end 10003
csv: Time [ns],A|0,1|1000.9,0|1001,1 => 1f 2r end 10002
csv: Time [us],A|0,1|1.x,0 => line 3: word 0
# Times are below 10,000,000,000 seconds in each unit, so nanoseconds from 1970 on are read.
csv: Time [ns],A|1764547200000000000,1|1764547200012000000,0 => 12000f end 22000
csv: Time [s],A|9999999999,1 => end 0
csv: Time [s],A|10000000000,1 => line 2: word 0
csv: Time [ms],A|9999999999999,1 => end 0
csv: Time [ms],A|10000000000000,1 => line 2: word 0
csv: Time [us],A|9999999999999999,1 => end 0
csv: Time [us],A|10000000000000000,1 => line 2: word 0
csv: Time [ns],A|9999999999999999999,1 => end 0
csv: Time [ns],A|10000000000000000000,1 => line 2: word 0
csv: Time [ns],A|0,1|2000000000000000,0 => 2000000000000f end 2000000000000
csv: Time [ns],A|0,1|2000000000000001,0 => line 3: late 0
# Seconds, where the name has no unit, another one, or no brackets; a time of the day is one in any column.
csv: Time,A [ms]|0,1|1,0 => 1000000f end 1010000
csv: Time [min],A|0,1|1,0 => 1000000f end 1010000
csv: Time [m],A|0,1|1,0 => 1000000f end 1010000
csv: Time [ms,A|0,1|1,0 => 1000000f end 1010000
csv: Time ms,A|0,1|1,0 => 1000000f end 1010000
csv: Time [rel] [ms],A|0,1|1,0 => 1000000f end 1010000
csv: Time [ms],A|2026-11-26T16:00:00Z,1|2026-11-26T16:00:01Z,0 => 1000000f end 1010000
# Levels as words, in any case, beside numbers.
csv: Time [s],CEC|0,High|0.012,Low|0.0157,HIGH => 12000f 15700r end 25700
csv:B Time [ms],A, B|0, low, high~|12, high, low~|15.7, 1, 1~ => 12000f 15700r end 25700
csv: Time,A|0,lOW|1,hIGH|2,HIGH => 0f 1000000r end 2000000
csv: Time,A|0,L => line 2: word 1
csv: Time,A|0,h => line 2: word 1
csv: Time,A|0,lowhigh => line 2: word 1
csv: Time,A|0,lo => line 2: word 1
# Voltages, as Logic 2 exports an analog channel: an input takes up to 0.8 V for a 0 and from 2.0 V on for a 1 (CEC 4), and between them the level stays.
auto: Time [s],Channel 0|0.000000000,3.301|0.012000000,2.0|0.012000500,1.9|0.012001000,0.9|0.012001500,0.8|0.015700000,-0.012|0.015701000,1.999|0.015702000,2.0|0.015703000,3.6 => 12002f 15702r end 15703
csv: Time [ms],CEC|0,3.3|12,0.6|15.7,2.5 => 12000f 15700r end 25700
csv: Time,A|0,1.4|1,0.8|2,0.800000001|3,1.999999999|4,2.|5,2.000000001 => 1000000f 4000000r end 5000000
csv: Time,A|0,0.0|1,1.4|2,+3.3|3,-0.1|4,+0|5,+1|6,-1 => 0f 2000000r 3000000f end 6000000
# 0 and 1 alone stay levels, and a column may have both.
csv: Time,A|0,1|1,1.0|2,0|3,1.0|4,1|5,0.4|6,High => 2000000f 4000000r 5000000f 6000000r end 6010000
csv: Time,A|0,3 => line 2: word 1
csv: Time,A|0,3.3V => line 2: word 1
csv: Time,A|0,.5 => line 2: word 1
csv: Time,A|0,- => line 2: word 1
csv: Time,A|0,+-1 => line 2: word 1
csv: Time,A|0,3.3e0 => line 2: word 1
csv: Time,A|0,00.1 => line 2: word 1
csv: Time,A|0,9999999999.9 => end 0
csv: Time,A|0,10000000000.0 => line 2: word 1
# As Logic 2 exports times of the day: by the clock of UTC, over midnights, ends of months, leap days and changes of the clock.
auto: Time [s],CEC|2026-11-26T16:00:00.060000000+00:00,1|2026-11-26T16:00:00.072000000+00:00,0|2026-11-26T16:00:00.075700000+00:00,1 => 12000f 15700r end 25700
csv: Time,A|2026-11-26T16:00:00.000000000999,1|2026-11-26T16:00:01,0 => 1000000f end 1010000
csv: Time,A|2026-12-31T23:59:59.999Z,1|2027-01-01T00:00:00.001Z,0 => 2000f end 12000
csv: Time,A|2026-01-31T23:59:59Z,1|2026-02-01T00:00:00Z,0 => 1000000f end 1010000
csv: Time,A|2026-02-28T23:59:59Z,1|2026-03-01T00:00:00Z,0 => 1000000f end 1010000
csv: Time,A|2026-03-31T23:59:59Z,1|2026-04-01T00:00:00Z,0 => 1000000f end 1010000
csv: Time,A|2026-04-30T23:59:59Z,1|2026-05-01T00:00:00Z,0 => 1000000f end 1010000
csv: Time,A|2026-05-31T23:59:59Z,1|2026-06-01T00:00:00Z,0 => 1000000f end 1010000
csv: Time,A|2026-06-30T23:59:59Z,1|2026-07-01T00:00:00Z,0 => 1000000f end 1010000
csv: Time,A|2026-07-31T23:59:59Z,1|2026-08-01T00:00:00Z,0 => 1000000f end 1010000
csv: Time,A|2026-08-31T23:59:59Z,1|2026-09-01T00:00:00Z,0 => 1000000f end 1010000
csv: Time,A|2026-09-30T23:59:59Z,1|2026-10-01T00:00:00Z,0 => 1000000f end 1010000
csv: Time,A|2026-10-31T23:59:59Z,1|2026-11-01T00:00:00Z,0 => 1000000f end 1010000
csv: Time,A|2026-11-30T23:59:59Z,1|2026-12-01T00:00:00Z,0 => 1000000f end 1010000
csv: Time,A|2024-02-28T23:59:59.5Z,1|2024-03-01T00:00:00.5Z,0 => 86401000000f end 86401010000
csv: Time,A|2024-12-31T23:59:59Z,1|2025-01-01T00:00:00Z,0 => 1000000f end 1010000
csv: Time,A|2000-02-28T23:59:59,1|2000-03-01T00:00:00,0 => 86401000000f end 86401010000
csv: Time,A|2100-02-28T23:59:59,1|2100-03-01T00:00:00,0 => 1000000f end 1010000
csv: Time,A|1970-01-01T00:00:00Z,1|1970-01-01T01:01:01.5Z,0 => 3661500000f end 3661510000
csv: Time,A|2026-10-25T02:59:59.5+02:00,1|2026-10-25T02:00:00.5+01:00,0 => 1000000f end 1010000
csv: Time,A|2026-01-01T00:00:00-05:30,1|2026-01-01T05:30:00.000001Z,0 => 1f end 10001
csv: Time,A|2026-11-26T16:00:01Z,1|2026-11-26T16:00:00Z,0 => line 3: order 0
csv: Time,A|1969-12-31T23:59:59Z,1 => line 2: word 0
csv: Time,A|1970-01-01T00:00:00+00:01,1 => line 2: word 0
csv: Time,A|2026-00-01T00:00:00,1 => line 2: word 0
csv: Time,A|2026-13-01T00:00:00,1 => line 2: word 0
csv: Time,A|2026-01-00T00:00:00,1 => line 2: word 0
csv: Time,A|2026-01-32T00:00:00,1 => line 2: word 0
csv: Time,A|2026-01-01T24:00:00,1 => line 2: word 0
csv: Time,A|2026-01-01T23:60:00,1 => line 2: word 0
csv: Time,A|2026-01-01T23:59:60,1 => line 2: word 0
csv: Time,A|2026-01-01 23:59:59,1 => line 2: word 0
csv: Time,A|2026-01-01T23:59,1 => line 2: word 0
csv: Time,A|2026-01-01T23:59:59+0100,1 => line 2: word 0
csv: Time,A|2026-01-01T23:59:59,5Z,1 => line 2: word 1
csv: Time,A|2026-01-01T23:59:59.5x,1 => line 2: word 0
csv: Time,A|2026-01-01T23:59:59ZZ,1 => line 2: word 0
# Edge files.
auto: # a comment|12000 0|15700 1|20000 end => 12000f 15700r end 20000
# A remark with a comma is no line of names.
auto: # first try, with a comma|12000 0|15700 1|20000 end => 12000f 15700r end 20000
auto: #,|12000 0|15700 1|20000 end => 12000f 15700r end 20000
auto: |12000 0|15700 1|20000 end => 12000f 15700r end 20000
auto:  => line 1: line 0
auto: 0,1 => line 1: line 0
# Words at fault: the time, the level, what stands after it; where one is missing, the number that it would have.
edges: 5 0|09 1|10 end => line 2: line 0
edges: 5 0|2000000000001 1|10 end => line 2: line 0
edges: # a fall|5 0|9|10 end => line 3: line 1
edges: 5 0|9 2|10 end => line 2: line 1
edges: 5 0|9  1|10 end => line 2: line 1
edges: 5 0|9 1 0|10 end => line 2: line 2
edges: 5 0|x 1 0|10 end => line 2: line 0
# Without an end the line after the last, and what stands after an end.
edges: 5 0 => line 2: line 0
edges: 5 0|9 1|10 end|# more||11 0 => line 6: line 0
edges: 5 0|9 1|10 end|11 end => line 4: line 0
edges: 5 0|9 1|10 end|11 2 => line 4: line 1
# Out of turn is a level that is there already, or else a time.
edges: 5 1|10 end => line 1: order 1
edges: 5 0|9 0|10 end => line 2: order 1
edges: 5 0|4 0|10 end => line 2: order 1
edges: 5 0|5 1|10 end => line 2: order 0
edges: 5 0|9 1|8 0|10 end => line 3: order 0
edges: 5 0|4 end => line 2: order 0
edges: 5 0|5 end => 5f end 5
# What is shorter than the width goes in pairs, from the left.
smooth:0 10 0|12 1|20 end => 10f 12r end 20
smooth:2 10 0|12 1|20 end => 10f 12r end 20
smooth:3 10 0|12 1|20 end => end 20
smooth:5 10 0|12 1|14 0|600 1|603 0|607 1|700 end => 14f 607r end 700
# Times are multiplied and cut; what would be shorter than a microsecond goes in pairs, from the left.
scale:10000 5 0|6 1|20 end => 5f 6r end 20
scale:1000 10005 0|10014 1|10020 0|10030 1|20009 end => 1002f 1003r end 2000
scale:1000 9 0|20 1|29 0|100 end => 0f end 10
scale:15000 1 0|2 1|3 0|7 end => 1f 3r 4f end 10
scale:1 9999 0|19999 1|30000 end => 0f 1r end 3
scale:10000000 1 0|2 1|3 end => 1000f 2000r end 3000
scale:20000 1000000000000 end => end 2000000000000
scale:20000 1000000000001 end => scale out of range
scale:10000001 3 end => scale out of range
scale:0 3 end => scale out of range
# Events that were lost.
lost: PINS|100.000000000 1|100.012000001 65536|100.015700000 65537|100.016000000 4|100.017000000 65539 => 8 9 11 .
lost: PINS|100.000000000 1 => .
# What begins before the line was high for 7,200 is one line; a line that was idle from the begin on has none.
idle: 1000 0|1600 1|3400 0|4000 1|30000 0|33000 1|40000 end => 0 11200 joined -|30000 33000 bad-start -|
idle: 7200 0|10200 1|40000 end => 7200 10200 bad-start -|
idle: 7199 0|10199 1|40000 end => 0 17399 joined -|
idle: 7199 0|10199 1|17000 end => 0 17000 joined -|
idle: 1000 0|40000 end => 0 40000 joined -|
idle: 40000 end => 
";
