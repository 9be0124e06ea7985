// The register map (manual, chapters 6 to 8): what an offset names on the current page. What an access there is refused by, shows and does is defined in
// specs/Registers.antt, a row for each place; the functions that do it are the board's.
#![tactic(auto)]

pub mod bytes; // the bytes that are read of several parts
pub mod map; // what an offset names

use ports::Port;
use timer::Select;

// What an offset names: Base0 to Base11 are the same on every page, the others are offsets 12 to 15 of a page. Beside each, what it is to a write and to a
// read.
#[derive(Clone, Copy)]
pub enum Place {
    Base0, // write: start A/D conversion; read: A/D LSB
    Base1, // write: auxiliary digital output; read: A/D MSB
    Base2, // A/D low channel register
    Base3, // A/D high channel register
    Base4, // write: DAC LSB; read: status and auxiliary digital inputs
    Base5, // write: DAC MSB and channel no.; read: update D/A channel
    Base6, // FIFO depth register
    Base7, // write: FIFO control register; read: FIFO status register
    Base8, // write: miscellaneous control register; read: A/D status register
    Base9, // write: interrupt and A/D clock control register; read: their status register
    Base10, // counter and digital I/O configuration register
    Base11, // write: analog configuration register; read: analog I/O readback register
    Count(Select), // page 0: a counter's count
    ControlWord, // page 0: the 82C54's control word
    PortData(Port), // page 1: a port's lines
    PortControl, // page 1: the 82C55's control byte
    Reserved, // page 2: nothing
    Auxiliary, // page 2: auxiliary control
    CalData, // page 3: EEPROM / TrimDAC data register
    CalAddress, // page 3: EEPROM / TrimDAC address register
    CalBase14, // page 3, write: calibration control register; read: calibration status register
    CalBase15, // page 3, write: EEPROM access key register; read: FPGA revision code
    Outside, // an offset above 15
}
