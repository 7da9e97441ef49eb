// An example, which the README goes through: three five-field rules become a list of ternary rules, and an image with this list goes to
// standard output.
#![tactic(auto)]

use five_fields::FiveFieldRules;
use rules::RuleList;

// Port 80 of 192.168.1.0/24, over protocol 6, is open to 10.0.0.0/8; the other ports up to 1,023 are closed to everybody; the rest is
// open. Here 1 and 3 let a packet through, and 2 does not.
fn main(rt: HostRuntime) {
    let rules = FiveFieldRules {
        source: &[0x0a000000, 0, 0],
        source_length: &[8, 0, 0],
        destination: &[0xc0a80100, 0, 0],
        destination_length: &[24, 0, 0],
        source_low: &[0, 0, 0],
        source_high: &[65535, 65535, 65535],
        destination_low: &[80, 0, 0],
        destination_high: &[80, 1023, 65535],
        protocol: &[6, 256, 256],
        decision: &[1, 2, 3],
    };
    let mut care = [0u64; 6];
    let mut value = [0u64; 6];
    let mut decision = [0u16; 3];
    let expanded = five_fields::expand(rules, &mut care, &mut value, &mut decision);
    if expanded.is_ok() {
        let mut image = [0u8; 114];
        let written = image_writer::write(
            2,
            104,
            &[1u16],
            &[3u16],
            RuleList {
                care: &care,
                value: &value,
                decision: &decision,
            },
            &mut image,
        );
        if written.is_ok() {
            host::say(&rt, &image);
        }
    }
}
