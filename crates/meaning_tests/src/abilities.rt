//! The payloads of data blocks and the flags of a CTA extension, and what they mean (CTA-861-G, section 7.5; HDMI 1.4, section
//! 8.3.2): each bit and each code alone, and some together. Those of `hdmi` are the bytes after the physical
//! address, of an EDID whose video codes are `CODES`.

pub(crate) const ROWS: &str = "\
audio 090707 = linear PCM, 2 channels, 32 44.1 48 kHz, 16 20 24 bits
audio 0f7f01 = linear PCM, 8 channels, 32 44.1 48 88.2 96 176.4 192 kHz, 16 bits
audio 080102 = linear PCM, 1 channel, 32 kHz, 20 bits
audio 080204 = linear PCM, 1 channel, 44.1 kHz, 24 bits
audio 080400 = linear PCM, 1 channel, 48 kHz
audio 080800 = linear PCM, 1 channel, 88.2 kHz
audio 081000 = linear PCM, 1 channel, 96 kHz
audio 082000 = linear PCM, 1 channel, 176.4 kHz
audio 084000 = linear PCM, 1 channel, 192 kHz
audio 088000 = linear PCM, 1 channel, reserved bits 0080
audio 888009 = linear PCM, 1 channel, 16 bits, reserved bits 08, reserved bits 8080
audio 150750 = AC-3, 6 channels, 32 44.1 48 kHz, up to 640 kbit/s
audio 190702 = MPEG-1, 2 channels, 32 44.1 48 kHz, up to 16 kbit/s
audio 210702 = MP3, 2 channels, 32 44.1 48 kHz, up to 16 kbit/s
audio 290702 = MPEG-2, 2 channels, 32 44.1 48 kHz, up to 16 kbit/s
audio 310702 = AAC LC, 2 channels, 32 44.1 48 kHz, up to 16 kbit/s
audio 3d1ec0 = DTS, 6 channels, 44.1 48 88.2 96 kHz, up to 1536 kbit/s
audio 4107ff = ATRAC, 2 channels, 32 44.1 48 kHz, up to 2040 kbit/s
audio 4d0200 = One Bit Audio, 6 channels, 44.1 kHz, byte 3 is 00
audio 570601 = Enhanced AC-3, 8 channels, 44.1 48 kHz, joint object coding (Dolby Atmos)
audio 570600 = Enhanced AC-3, 8 channels, 44.1 48 kHz
audio 570602 = Enhanced AC-3, 8 channels, 44.1 48 kHz, joint object coding with ACMOD 28 alone
audio 570603 = Enhanced AC-3, 8 channels, 44.1 48 kHz, joint object coding (Dolby Atmos), also with ACMOD 28
audio 5706fc = Enhanced AC-3, 8 channels, 44.1 48 kHz, reserved bits fc
audio 5f7e01 = DTS-HD, 8 channels, 44.1 48 88.2 96 176.4 192 kHz, byte 3 is 01
audio 677e01 = MAT, 8 channels, 44.1 48 88.2 96 176.4 192 kHz, objects and channels (Dolby Atmos), hash needed
audio 677e00 = MAT, 8 channels, 44.1 48 88.2 96 176.4 192 kHz, TrueHD alone
audio 677e02 = MAT, 8 channels, 44.1 48 88.2 96 176.4 192 kHz, TrueHD alone
audio 677eff = MAT, 8 channels, 44.1 48 88.2 96 176.4 192 kHz, objects and channels (Dolby Atmos), no hash needed, reserved bits fc
audio 690200 = DST, 2 channels, 44.1 kHz, byte 3 is 00
audio 710603 = WMA Pro, 2 channels, 44.1 48 kHz, profile 3
audio 71060b = WMA Pro, 2 channels, 44.1 48 kHz, profile 3, reserved bits 08
audio 010700 = reserved, 2 channels, 32 44.1 48 kHz, byte 3 is 00
audio 7d0424 = MPEG-4 HE AAC, 6 channels, 48 kHz, frames of 1024 samples
audio 7d0422 = MPEG-4 HE AAC, 6 channels, 48 kHz, frames of 960 samples
audio 7d0426 = MPEG-4 HE AAC, 6 channels, 48 kHz, frames of 1024 and of 960 samples
audio 7d0428 = MPEG-4 HE AAC v2, 6 channels, 48 kHz
audio 7d042b = MPEG-4 HE AAC v2, 6 channels, 48 kHz, frames of 960 samples, reserved bits 01
audio 7d0430 = MPEG-4 AAC LC, 6 channels, 48 kHz
audio 7d0436 = MPEG-4 AAC LC, 6 channels, 48 kHz, frames of 1024 and of 960 samples
audio 7d0438 = DRA, 6 channels, 48 kHz, byte 3 is 38
audio 7d0440 = MPEG-4 HE AAC and MPEG Surround, 6 channels, 48 kHz, surround implicit
audio 7d0442 = MPEG-4 HE AAC and MPEG Surround, 6 channels, 48 kHz, frames of 960 samples, surround implicit
audio 7d0447 = MPEG-4 HE AAC and MPEG Surround, 6 channels, 48 kHz, frames of 1024 and of 960 samples, surround implicit and explicit
audio 7d0445 = MPEG-4 HE AAC and MPEG Surround, 6 channels, 48 kHz, frames of 1024 samples, surround implicit and explicit
audio 7d0450 = MPEG-4 AAC LC and MPEG Surround, 6 channels, 48 kHz, surround implicit
audio 7d0452 = MPEG-4 AAC LC and MPEG Surround, 6 channels, 48 kHz, frames of 960 samples, surround implicit
audio 7d0456 = MPEG-4 AAC LC and MPEG Surround, 6 channels, 48 kHz, frames of 1024 and of 960 samples, surround implicit
audio 7b0458 = MPEG-H 3D, 48 kHz, reserved bits 0300
audio 780458 = MPEG-H 3D, 48 kHz
audio 780459 = MPEG-H 3D, 48 kHz, level 1
audio 78045a = MPEG-H 3D, 48 kHz, level 2
audio 78045b = MPEG-H 3D, 48 kHz, level 3
audio 78045c = MPEG-H 3D, 48 kHz, level 4
audio 78045d = MPEG-H 3D, 48 kHz, level 5
audio 78045e = MPEG-H 3D, 48 kHz, level 6 (reserved)
audio 780460 = AC-4, 48 kHz, byte 3 is 60
audio 7d0470 = Auro-Cx, 6 channels, 48 kHz, byte 3 is 70
audio 7d0478 = MPEG-D USAC, 6 channels, 48 kHz, byte 3 is 78
audio ff8469 = linear PCM 3D, 32 channels, 48 kHz, 16 bits
audio 7d0448 = reserved extension, 6 channels, 48 kHz, byte 3 is 48
audio 09070715 = linear PCM, 2 channels, 32 44.1 48 kHz, 16 20 24 bits | in hex 15
audio 0907 = in hex 0907
speakers 010000 = FL FR
speakers 020000 = LFE
speakers 040000 = FC
speakers 080000 = BL BR
speakers 100000 = BC
speakers 200000 = FLc FRc
speakers 400000 = RLC RRC
speakers 800000 = FLw FRw
speakers 000100 = TpFL TpFR
speakers 000200 = TpC
speakers 000400 = TpFC
speakers 000800 = LS RS
speakers 001000 = LFE2
speakers 002000 = TpBC
speakers 004000 = SiL SiR
speakers 008000 = TpSiL TpSiR
speakers 000001 = TpBL TpBR
speakers 000002 = BtFC
speakers 000004 = BtFL BtFR
speakers 000008 = TpLS TpRS
speakers 000010 = LSd RSd
speakers 000020 = reserved speaker 21
speakers 000040 = reserved speaker 22
speakers 000080 = reserved speaker 23
speakers 4f0000 = FL FR, LFE, FC, BL BR, RLC RRC
speakers 01 = FL FR
speakers 010000aa = FL FR, then in hex aa
cta f1 = underscans, basic audio, YCbCr 4:4:4, YCbCr 4:2:2, 1 native timing
cta 80 = underscans, 0 native timings
cta 40 = basic audio, 0 native timings
cta 20 = YCbCr 4:4:4, 0 native timings
cta 10 = YCbCr 4:2:2, 0 native timings
cta 0f = 15 native timings
hdmi b83c = AI, 36 30 bits a pixel also in 4:4:4, TMDS up to 300 MHz
hdmi f83c = AI, 48 36 30 bits a pixel also in 4:4:4, TMDS up to 300 MHz
hdmi 80 = AI
hdmi 40 = 48 bits a pixel
hdmi 20 = 36 bits a pixel
hdmi 10 = 30 bits a pixel
hdmi 08 = deep colour in 4:4:4
hdmi 01 = dual-link DVI
hdmi 0001 = TMDS up to 5 MHz
hdmi 00ff = TMDS up to 1275 MHz
hdmi 002d0f = TMDS up to 225 MHz, graphics content, photo content, cinema content, game content
hdmi 000001 = graphics content
hdmi 000002 = photo content
hdmi 000004 = cinema content
hdmi 000008 = game content
hdmi 000010 = reserved bit 4
hdmi 02 = reserved bits 02
hdmi 04 = reserved bits 04
hdmi 0000800b05 = video latency 20 ms, audio latency 8 ms
hdmi 000080fb01 = video latency 500 ms, audio latency 0 ms
hdmi 00008000ff = video latency unknown, no audio
hdmi 000080ff00 = no video, audio latency unknown
hdmi 000040ffff = no interlaced video, no audio
hdmi 000080fcfe = video latency reserved, audio latency reserved
hdmi 0000c00b051505 = video latency 20 ms, audio latency 8 ms | interlaced video latency 40 ms, audio latency 8 ms
hdmi 0000400b05 = interlaced video latency 20 ms, audio latency 8 ms
hdmi 00002000800102030405 = HDMI 1: 3840x2160 at 30 Hz 16:9 | HDMI 2: 3840x2160 at 25 Hz 16:9 | HDMI 3: 3840x2160 at 24 Hz 16:9 | HDMI 4: 4096x2160 at 24 Hz 256:135 | then in hex 05
hdmi 000020002005 = HDMI 5: reserved
hdmi 0000208000 = 3D
hdmi 0000200800 = size right in its aspect alone
hdmi 0000201000 = size to 1 cm
hdmi 0000209800 = 3D, size to 5 cm
hdmi 000020a0020141 = 3D, 3D of the first 16 codes | 3D frame packing, 3D top and bottom, 3D side by side (half)
hdmi 000020a00200ff = 3D, 3D of the first 16 codes | 3D frame packing, 3D field alternative, 3D line alternative, 3D side by side (full), 3D L + depth, 3D L + depth + graphics, 3D top and bottom, reserved 3D structure 7
hdmi 000020a0020001 = 3D, 3D of the first 16 codes | 3D frame packing
hdmi 000020a0020002 = 3D, 3D of the first 16 codes | 3D field alternative
hdmi 000020a0020004 = 3D, 3D of the first 16 codes | 3D line alternative
hdmi 000020a0020008 = 3D, 3D of the first 16 codes | 3D side by side (full)
hdmi 000020a0020010 = 3D, 3D of the first 16 codes | 3D L + depth
hdmi 000020a0020020 = 3D, 3D of the first 16 codes | 3D L + depth + graphics
hdmi 000020a0020040 = 3D, 3D of the first 16 codes | 3D top and bottom
hdmi 000020a0020080 = 3D, 3D of the first 16 codes | reserved 3D structure 7
hdmi 000020a0020100 = 3D, 3D of the first 16 codes | 3D side by side (half)
hdmi 000020a0020200 = 3D, 3D of the first 16 codes | reserved 3D structure 9
hdmi 000020a0020400 = 3D, 3D of the first 16 codes | reserved 3D structure 10
hdmi 000020a0020800 = 3D, 3D of the first 16 codes | reserved 3D structure 11
hdmi 000020a0021000 = 3D, 3D of the first 16 codes | reserved 3D structure 12
hdmi 000020a0022000 = 3D, 3D of the first 16 codes | reserved 3D structure 13
hdmi 000020a0024000 = 3D, 3D of the first 16 codes | reserved 3D structure 14
hdmi 000020a0028000 = 3D, 3D of the first 16 codes | 3D side by side (half) quincunx
hdmi 000020a00101 = 3D, 3D of the first 16 codes | then in hex 01
hdmi 000020c0040100000a = 3D, 3D of some of the first 16 codes | 3D side by side (half) | 4: 1280x720 at 60 Hz 16:9, 3D | 16: 1920x1080 at 60 Hz 16:9, 3D
hdmi 000020c00401008001 = 3D, 3D of some of the first 16 codes | 3D side by side (half) | 32: 1920x1080 at 24 Hz 16:9, 3D | place 16: no code, 3D
hdmi 000020c0030100aa = 3D, 3D of some of the first 16 codes | then in hex 0100aa
hdmi 000020e000 = 3D, 3D in a reserved form
hdmi 0000200700 = reserved bits 07
hdmi 000020800110 = 3D | 4: 1280x720 at 60 Hz 16:9, 3D frame packing
hdmi 00002080060001021620f6 = 3D | 32: 1920x1080 at 24 Hz 16:9, 3D frame packing | 32: 1920x1080 at 24 Hz 16:9, 3D field alternative | 32: 1920x1080 at 24 Hz 16:9, 3D line alternative | 4: 1280x720 at 60 Hz 16:9, 3D top and bottom | 5: 1920x1080i at 60 Hz 16:9, 3D frame packing | place 16: no code, 3D top and bottom
hdmi 000020800403040507 = 3D | 32: 1920x1080 at 24 Hz 16:9, 3D side by side (full) | 32: 1920x1080 at 24 Hz 16:9, 3D L + depth | 32: 1920x1080 at 24 Hz 16:9, 3D L + depth + graphics | 32: 1920x1080 at 24 Hz 16:9, reserved 3D structure 7
hdmi 00002080050800081018 = 3D | 32: 1920x1080 at 24 Hz 16:9, 3D side by side (half) | 32: 1920x1080 at 24 Hz 16:9, 3D side by side (half), horizontal | 4: 1280x720 at 60 Hz 16:9, 3D side by side (half)
hdmi 00002080080861087508800890 = 3D | 32: 1920x1080 at 24 Hz 16:9, 3D side by side (half), all quincunx, reserved bits 01 | 32: 1920x1080 at 24 Hz 16:9, 3D side by side (half), quincunx odd left, odd right, reserved bits 05 | 32: 1920x1080 at 24 Hz 16:9, 3D side by side (half), quincunx odd left, even right | 32: 1920x1080 at 24 Hz 16:9, 3D side by side (half), quincunx even left, odd right
hdmi 000020800408a009b0 = 3D | 32: 1920x1080 at 24 Hz 16:9, 3D side by side (half), quincunx even left, even right | 32: 1920x1080 at 24 Hz 16:9, 3D structure 9 (reserved), detail 11 (reserved)
hdmi 00002080080820083008400850 = 3D | 32: 1920x1080 at 24 Hz 16:9, 3D side by side (half), reserved detail 2 | 32: 1920x1080 at 24 Hz 16:9, 3D side by side (half), reserved detail 3 | 32: 1920x1080 at 24 Hz 16:9, 3D side by side (half), reserved detail 4 | 32: 1920x1080 at 24 Hz 16:9, 3D side by side (half), reserved detail 5
hdmi 0000200065 = counts 3 codes and 5 bytes of 3D
hdmi 000020002001 = HDMI 1: 3840x2160 at 30 Hz 16:9
hdmi 000020002201 = counts 1 codes and 2 bytes of 3D | HDMI 1: 3840x2160 at 30 Hz 16:9
hdmi 00002080210100bb = 3D | HDMI 1: 3840x2160 at 30 Hz 16:9 | 32: 1920x1080 at 24 Hz 16:9, 3D frame packing | then in hex bb
";

/// Payloads of displays and receivers whose every bit is told: those of a pair of real EDIDs, and some with 3D, latencies and
/// other formats of sound.
pub(crate) const TOLD: &str = "\
cta f1
video 6160101f0413051403021220212215015d5e5f6566626364
video 6160101f0413051403021220212215015d5e5f65666263640e230f241e26
audio 3d06c0150750095707
audio 0f7f073d1ec01507505f7e03570603677e035f7e01
speakers 5f0000
hdmi b83c20008001020304
hdmi b83cef0b051505a06601020301418107100890
hdmi 0000a00b05c00641410003100890
audio 7d04247d04447d045b7d0468710603
form 000000f7000a0102030405060000000000
form 000000f80001572821000000000000000000
";
