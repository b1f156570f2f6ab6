// The main map of the ADV7511 (source document 000, section 5). Document 01: "Addresses and fields are kept as constants of the map".
#![tactic(auto)]

ghost use Rattle.std.specs.Prelude.{◌≡◌};
ghost use Rattle.map.specs.Printed.{twins, printed};

/// The main register map: its addresses, and the masks and shifts of the fields in them, are constants of this type.
#[derive(Clone, Copy)]
pub struct Map;

impl Map {
    /// 0x01: N[19:16].
    pub const N0: u8 = 0x01;

    /// The mask of N[19:16]: bits 3 to 0.
    pub const N0_MASK: u8 = 0x0F;

    /// 0x02: N[15:8].
    pub const N1: u8 = 0x02;

    /// 0x03: N[7:0].
    pub const N2: u8 = 0x03;

    /// 0x07: CTS Manual[19:16].
    pub const CTS_MANUAL0: u8 = 0x07;

    /// The mask of CTS Manual[19:16]: bits 3 to 0.
    pub const CTS_MANUAL0_MASK: u8 = 0x0F;

    /// 0x08: CTS Manual[15:8].
    pub const CTS_MANUAL1: u8 = 0x08;

    /// 0x09: CTS Manual[7:0].
    pub const CTS_MANUAL2: u8 = 0x09;

    /// 0x0A: CTS Select, Audio Select, Audio Mode.
    pub const AUDIO_SOURCE: u8 = 0x0A;

    /// The mask of CTS Select: bit 7.
    pub const CTS_SELECT_MASK: u8 = 0x80;

    /// The shift of CTS Select.
    pub const CTS_SELECT_SHIFT: u8 = 7;

    /// The mask of Audio Select: bits 6 to 4.
    pub const AUDIO_SELECT_MASK: u8 = 0x70;

    /// The mask of Audio Mode: bits 3 to 2.
    pub const AUDIO_MODE_MASK: u8 = 0x0C;

    /// The default of Audio Select, in its place.
    pub const AUDIO_SELECT_DEFAULT: u8 = 0x00;

    /// The default of Audio Mode, in its place.
    pub const AUDIO_MODE_DEFAULT: u8 = 0x00;

    /// 0x0C: I2S3 Enable to I2S0 Enable, I2S Format.
    pub const I2S_CONFIG: u8 = 0x0C;

    /// The mask of I2S3 Enable: bit 5.
    pub const I2S3_ENABLE_MASK: u8 = 0x20;

    /// The mask of I2S2 Enable: bit 4.
    pub const I2S2_ENABLE_MASK: u8 = 0x10;

    /// The mask of I2S1 Enable: bit 3.
    pub const I2S1_ENABLE_MASK: u8 = 0x08;

    /// The mask of I2S0 Enable: bit 2.
    pub const I2S0_ENABLE_MASK: u8 = 0x04;

    /// The shift of I2S0 Enable.
    pub const I2S0_ENABLE_SHIFT: u8 = 2;

    /// The mask of I2S Format: bits 1 to 0.
    pub const I2S_FORMAT_MASK: u8 = 0x03;

    /// The default of I2S Format, in its place.
    pub const I2S_FORMAT_DEFAULT: u8 = 0x00;

    /// 0x15: I2S Sampling Frequency, Input ID.
    pub const I2S_FREQ_ID_CFG: u8 = 0x15;

    /// The mask of I2S Sampling Frequency: bits 7 to 4.
    pub const I2S_SAMPLING_FREQUENCY_MASK: u8 = 0xF0;

    /// The shift of I2S Sampling Frequency.
    pub const I2S_SAMPLING_FREQUENCY_SHIFT: u8 = 4;

    /// The mask of Input ID: bits 3 to 0.
    pub const INPUT_ID_MASK: u8 = 0x0F;

    /// 0x16: Output Format, Input Color Depth, Input Style.
    pub const VIDEO_INPUT_CFG1: u8 = 0x16;

    /// The mask of Output Format: bit 7.
    pub const OUTPUT_FORMAT_MASK: u8 = 0x80;

    /// The mask of Input Color Depth: bits 5 to 4.
    pub const INPUT_COLOR_DEPTH_MASK: u8 = 0x30;

    /// The shift of Input Color Depth.
    pub const INPUT_COLOR_DEPTH_SHIFT: u8 = 4;

    /// The mask of Input Style: bits 3 to 2.
    pub const INPUT_STYLE_MASK: u8 = 0x0C;

    /// The shift of Input Style.
    pub const INPUT_STYLE_SHIFT: u8 = 2;

    /// 0x18: CSC Enable, CSC Scaling Factor, A1 to C4: the first of 24 registers, two for each coefficient, its high five bits first.
    pub const CSC: u8 = 0x18;

    /// The count of the registers of the coefficients.
    pub const CSC_COUNT: u8 = 24;

    /// The mask of CSC Enable: bit 7.
    pub const CSC_ENABLE_MASK: u8 = 0x80;

    /// The shift of CSC Enable.
    pub const CSC_ENABLE_SHIFT: u8 = 7;

    /// The mask of CSC Scaling Factor: bits 6 to 5.
    pub const CSC_SCALING_FACTOR_MASK: u8 = 0x60;

    /// The shift of CSC Scaling Factor.
    pub const CSC_SCALING_FACTOR_SHIFT: u8 = 5;

    /// The mask of a coefficient's high five bits: bits 4 to 0.
    pub const CSC_HIGH_MASK: u8 = 0x1F;

    /// 0x1A: Coefficient Update.
    pub const COEFFICIENT_UPDATE: u8 = 0x1A;

    /// The mask of Coefficient Update: bit 5.
    pub const COEFFICIENT_UPDATE_MASK: u8 = 0x20;

    /// 0x30: Hsync Placement, Hsync Duration, Vsync Placement, Vsync Duration of the embedded sync decoder: the first of five registers, ten
    /// bits for each, one after the other.
    pub const SYNC_GENERATION: u8 = 0x30;

    /// The count of the registers of the sync decoder.
    pub const SYNC_GENERATION_COUNT: u8 = 5;

    /// 0x3B: PR Mode, PR PLL Manual, PR Value Manual.
    pub const PIXEL_REPETITION: u8 = 0x3B;

    /// The mask of PR Mode: bits 6 to 5.
    pub const PR_MODE_MASK: u8 = 0x60;

    /// The shift of PR Mode.
    pub const PR_MODE_SHIFT: u8 = 5;

    /// The mask of PR PLL Manual: bits 4 to 3.
    pub const PR_PLL_MANUAL_MASK: u8 = 0x18;

    /// The shift of PR PLL Manual.
    pub const PR_PLL_MANUAL_SHIFT: u8 = 3;

    /// The mask of PR Value Manual: bits 2 to 1.
    pub const PR_VALUE_MANUAL_MASK: u8 = 0x06;

    /// The shift of PR Value Manual.
    pub const PR_VALUE_MANUAL_SHIFT: u8 = 1;

    /// 0x3C: VIC Manual.
    pub const VIC_MANUAL: u8 = 0x3C;

    /// The mask of VIC Manual: bits 5 to 0.
    pub const VIC_MANUAL_MASK: u8 = 0x3F;

    /// 0x40: GC Packet Enable.
    pub const PACKET_ENABLE0: u8 = 0x40;

    /// The mask of GC Packet Enable: bit 7.
    pub const GC_PACKET_ENABLE_MASK: u8 = 0x80;

    /// 0x44: N CTS Packet Enable, Audio Sample Packet Enable, AVI InfoFrame Enable, Audio InfoFrame Enable.
    pub const PACKET_ENABLE1: u8 = 0x44;

    /// The mask of N CTS Packet Enable: bit 6.
    pub const N_CTS_PACKET_ENABLE_MASK: u8 = 0x40;

    /// The mask of Audio Sample Packet Enable: bit 5.
    pub const AUDIO_SAMPLE_PACKET_ENABLE_MASK: u8 = 0x20;

    /// The mask of AVI InfoFrame Enable: bit 4.
    pub const AVI_INFOFRAME_ENABLE_MASK: u8 = 0x10;

    /// The mask of Audio InfoFrame Enable: bit 3.
    pub const AUDIO_INFOFRAME_ENABLE_MASK: u8 = 0x08;

    /// 0x48: Video Input Justification.
    pub const VIDEO_INPUT_CFG2: u8 = 0x48;

    /// The mask of Video Input Justification: bits 4 to 3.
    pub const VIDEO_INPUT_JUSTIFICATION_MASK: u8 = 0x18;

    /// The shift of Video Input Justification.
    pub const VIDEO_INPUT_JUSTIFICATION_SHIFT: u8 = 3;

    /// 0x4A: Auto Checksum Enable, and the packet holds: AVI, Audio InfoFrame and GC Packet Update.
    pub const INFOFRAME_UPDATE: u8 = 0x4A;

    /// The mask of Auto Checksum Enable: bit 7.
    pub const AUTO_CHECKSUM_ENABLE_MASK: u8 = 0x80;

    /// The mask of AVI Packet Update: bit 6.
    pub const AVI_PACKET_UPDATE_MASK: u8 = 0x40;

    /// The mask of Audio InfoFrame Packet Update: bit 5.
    pub const AUDIO_INFOFRAME_PACKET_UPDATE_MASK: u8 = 0x20;

    /// The mask of GC Packet Update: bit 4.
    pub const GC_PACKET_UPDATE_MASK: u8 = 0x10;

    /// 0x4B: Clear AV Mute, Set AV Mute.
    pub const AV_MUTE: u8 = 0x4B;

    /// The mask of Clear AV Mute: bit 7.
    pub const CLEAR_AV_MUTE_MASK: u8 = 0x80;

    /// The mask of Set AV Mute: bit 6.
    pub const SET_AV_MUTE_MASK: u8 = 0x40;

    /// 0x4C: Color Depth, of the GC packet.
    pub const GC_DEPTH: u8 = 0x4C;

    /// The mask of Color Depth: bits 3 to 0.
    pub const COLOR_DEPTH_MASK: u8 = 0x0F;

    /// 0x52: AVI InfoFrame Version: the first of 16 registers.
    pub const AVI_INFOFRAME_VERSION: u8 = 0x52;

    /// The count of the registers of the AVI InfoFrame.
    pub const AVI_INFOFRAME_COUNT: u8 = 16;

    /// The mask of AVI InfoFrame Version: bits 2 to 0.
    pub const AVI_INFOFRAME_VERSION_MASK: u8 = 0x07;

    /// 0x53: AVI InfoFrame Length.
    pub const AVI_INFOFRAME_LENGTH: u8 = 0x53;

    /// The mask of AVI InfoFrame Length: bits 4 to 0.
    pub const AVI_INFOFRAME_LENGTH_MASK: u8 = 0x1F;

    /// 0x54: AVI InfoFrame Checksum.
    pub const AVI_INFOFRAME_CHECKSUM: u8 = 0x54;

    /// 0x55: AVI data byte 1.
    pub const AVI_INFOFRAME_BYTE1: u8 = 0x55;

    /// 0x70: Audio InfoFrame Version: the first of 13 registers.
    pub const AUDIO_INFOFRAME_VERSION: u8 = 0x70;

    /// The count of the registers of the audio InfoFrame.
    pub const AUDIO_INFOFRAME_COUNT: u8 = 13;

    /// The mask of Audio InfoFrame Version: bits 2 to 0.
    pub const AUDIO_INFOFRAME_VERSION_MASK: u8 = 0x07;

    /// 0x71: Audio InfoFrame Length.
    pub const AUDIO_INFOFRAME_LENGTH: u8 = 0x71;

    /// The mask of Audio InfoFrame Length: bits 4 to 0.
    pub const AUDIO_INFOFRAME_LENGTH_MASK: u8 = 0x1F;

    /// 0x72: Audio InfoFrame Checksum.
    pub const AUDIO_INFOFRAME_CHECKSUM: u8 = 0x72;

    /// 0x73: Audio data byte 1.
    pub const AUDIO_INFOFRAME_BYTE1: u8 = 0x73;

    /// 0x98: Table 14: Fixed.
    pub const FIXED_98: u8 = 0x98;

    /// 0x9A: Table 14: Fixed.
    pub const FIXED_9A: u8 = 0x9A;

    /// 0x9C: Table 14: Fixed.
    pub const FIXED_9C: u8 = 0x9C;

    /// 0x9D: Table 14: Fixed.
    pub const FIXED_9D: u8 = 0x9D;

    /// 0xA2: Table 14: Fixed.
    pub const FIXED_A2: u8 = 0xA2;

    /// 0xA3: Table 14: Fixed.
    pub const FIXED_A3: u8 = 0xA3;

    /// 0xAF: HDMI/DVI Mode Select.
    pub const HDCP_HDMI_CFG: u8 = 0xAF;

    /// The mask of HDMI/DVI Mode Select: bit 1.
    pub const HDMI_DVI_MODE_SELECT_MASK: u8 = 0x02;

    /// 0xE0: Table 14: Fixed.
    pub const FIXED_E0: u8 = 0xE0;

    /// 0xF9: Table 14: Fixed I2C Address.
    pub const FIXED_I2C_ADDRESS: u8 = 0xF9;
}

/// Every constant of the map: it is its twin, and what is printed.
pub fn constants() -> [u8; 97]
    ensures as_defined { result ≡ twins }
    ensures as_printed { result ≡ printed }
{
    [
        Map::N0,
        Map::N0_MASK,
        Map::N1,
        Map::N2,
        Map::CTS_MANUAL0,
        Map::CTS_MANUAL0_MASK,
        Map::CTS_MANUAL1,
        Map::CTS_MANUAL2,
        Map::AUDIO_SOURCE,
        Map::CTS_SELECT_MASK,
        Map::CTS_SELECT_SHIFT,
        Map::AUDIO_SELECT_MASK,
        Map::AUDIO_SELECT_DEFAULT,
        Map::AUDIO_MODE_MASK,
        Map::AUDIO_MODE_DEFAULT,
        Map::I2S_CONFIG,
        Map::I2S3_ENABLE_MASK,
        Map::I2S2_ENABLE_MASK,
        Map::I2S1_ENABLE_MASK,
        Map::I2S0_ENABLE_MASK,
        Map::I2S0_ENABLE_SHIFT,
        Map::I2S_FORMAT_MASK,
        Map::I2S_FORMAT_DEFAULT,
        Map::I2S_FREQ_ID_CFG,
        Map::I2S_SAMPLING_FREQUENCY_MASK,
        Map::I2S_SAMPLING_FREQUENCY_SHIFT,
        Map::INPUT_ID_MASK,
        Map::VIDEO_INPUT_CFG1,
        Map::OUTPUT_FORMAT_MASK,
        Map::INPUT_COLOR_DEPTH_MASK,
        Map::INPUT_COLOR_DEPTH_SHIFT,
        Map::INPUT_STYLE_MASK,
        Map::INPUT_STYLE_SHIFT,
        Map::CSC,
        Map::CSC_COUNT,
        Map::CSC_ENABLE_MASK,
        Map::CSC_ENABLE_SHIFT,
        Map::CSC_SCALING_FACTOR_MASK,
        Map::CSC_SCALING_FACTOR_SHIFT,
        Map::CSC_HIGH_MASK,
        Map::COEFFICIENT_UPDATE,
        Map::COEFFICIENT_UPDATE_MASK,
        Map::SYNC_GENERATION,
        Map::SYNC_GENERATION_COUNT,
        Map::PIXEL_REPETITION,
        Map::PR_MODE_MASK,
        Map::PR_MODE_SHIFT,
        Map::PR_PLL_MANUAL_MASK,
        Map::PR_PLL_MANUAL_SHIFT,
        Map::PR_VALUE_MANUAL_MASK,
        Map::PR_VALUE_MANUAL_SHIFT,
        Map::VIC_MANUAL,
        Map::VIC_MANUAL_MASK,
        Map::PACKET_ENABLE0,
        Map::GC_PACKET_ENABLE_MASK,
        Map::PACKET_ENABLE1,
        Map::N_CTS_PACKET_ENABLE_MASK,
        Map::AUDIO_SAMPLE_PACKET_ENABLE_MASK,
        Map::AVI_INFOFRAME_ENABLE_MASK,
        Map::AUDIO_INFOFRAME_ENABLE_MASK,
        Map::VIDEO_INPUT_CFG2,
        Map::VIDEO_INPUT_JUSTIFICATION_MASK,
        Map::VIDEO_INPUT_JUSTIFICATION_SHIFT,
        Map::INFOFRAME_UPDATE,
        Map::AUTO_CHECKSUM_ENABLE_MASK,
        Map::AVI_PACKET_UPDATE_MASK,
        Map::AUDIO_INFOFRAME_PACKET_UPDATE_MASK,
        Map::GC_PACKET_UPDATE_MASK,
        Map::AV_MUTE,
        Map::CLEAR_AV_MUTE_MASK,
        Map::SET_AV_MUTE_MASK,
        Map::GC_DEPTH,
        Map::COLOR_DEPTH_MASK,
        Map::AVI_INFOFRAME_VERSION,
        Map::AVI_INFOFRAME_COUNT,
        Map::AVI_INFOFRAME_VERSION_MASK,
        Map::AVI_INFOFRAME_LENGTH,
        Map::AVI_INFOFRAME_LENGTH_MASK,
        Map::AVI_INFOFRAME_CHECKSUM,
        Map::AVI_INFOFRAME_BYTE1,
        Map::AUDIO_INFOFRAME_VERSION,
        Map::AUDIO_INFOFRAME_COUNT,
        Map::AUDIO_INFOFRAME_VERSION_MASK,
        Map::AUDIO_INFOFRAME_LENGTH,
        Map::AUDIO_INFOFRAME_LENGTH_MASK,
        Map::AUDIO_INFOFRAME_CHECKSUM,
        Map::AUDIO_INFOFRAME_BYTE1,
        Map::FIXED_98,
        Map::FIXED_9A,
        Map::FIXED_9C,
        Map::FIXED_9D,
        Map::FIXED_A2,
        Map::FIXED_A3,
        Map::HDCP_HDMI_CFG,
        Map::HDMI_DVI_MODE_SELECT_MASK,
        Map::FIXED_E0,
        Map::FIXED_I2C_ADDRESS,
    ]
}
