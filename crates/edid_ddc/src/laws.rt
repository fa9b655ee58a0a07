//! A law of ports.
ghost use Rattle.edid_ddc.specs.Ports.{PortsReportPlaces};

/// A device that is plugged in and on the wire learns its own physical address from the EDID of the port that it
/// is plugged into (HDMI 1.4, section 8.7.2).
pub fn ports_report_places()
    ensures { PortsReportPlaces }
{}
