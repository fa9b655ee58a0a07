//! Deck Control (CEC 13.7) and Device Menu Control (CEC 13.12): what a deck and its menu do.
ghost use Rattle.std.specs.Prelude.{◌≡◌};
ghost use Rattle.device_features.specs.Effect.{does, at_most_one};
ghost use Rattle.device_features.specs.Effects.{deck_control, deck_asked, is_no_media, menu_asked, menu_reported, mode_deck, notice, plays, deck_change, wound};

use crate::messages::menu_status;
use crate::record::{Heard, Record};
use crate::say::{DataBlocks, Say, Says, at_most_one, refuse, reply, silence};
use message_table::{
    DeckControlMode, DeckInfo, MenuRequestType, Message, PlayMode, Reason, StatusRequest,
};

// The state of the deck that a play mode asks for.
fn deck_of_mode(mode: PlayMode) -> Option<DeckInfo>
    ensures { result ≡ mode_deck mode }
{
    match mode {
        PlayMode::Forward => Some(DeckInfo::Play),
        PlayMode::Still => Some(DeckInfo::Still),
        PlayMode::FastForwardMin | PlayMode::FastForwardMid | PlayMode::FastForwardMax => {
            Some(DeckInfo::FastForward)
        }
        PlayMode::FastReverseMin | PlayMode::FastReverseMid | PlayMode::FastReverseMax => {
            Some(DeckInfo::FastReverse)
        }
        PlayMode::Other(_) => None,
    }
}

impl Record {
    /// Whether the deck has no medium.
    pub(crate) fn lacks_medium(&self) -> bool
        ensures { result ≡ is_no_media self.now.deck }
    {
        matches!(self.deck, DeckInfo::NoMedia)
    }

    /// Deck Status for who asked for it at each change, where this is another state.
    pub(crate) fn notice(&self, deck: DeckInfo) -> Option<Say>
        ensures { at_most_one result ≡ notice self.now deck }
    {
        if self.deck.byte() == deck.byte() {
            return None;
        }
        match self.sub {
            Some(sub) => Some(Say::Report(sub, DataBlocks::new(&Message::DeckStatus { deck }))),
            None => None,
        }
    }

    /// Turns the deck to a state.
    pub(crate) fn turn(&mut self, deck: DeckInfo) -> Says
        ensures { does self.new result.items ≡ deck_change self.old deck }
    {
        let notice = self.notice(deck);
        self.deck = deck;
        at_most_one(notice)
    }

    /// Says what the deck does from now on, no more, or once.
    pub(crate) fn ask_deck(&mut self, heard: &Heard, request: StatusRequest) -> Says
        ensures { does self.new result.items ≡ deck_asked heard.now self.old request }
    {
        let status = Message::DeckStatus { deck: self.deck };
        match request {
            StatusRequest::On => {
                self.sub = Some(heard.from);
                reply(&status)
            }
            StatusRequest::Off => {
                self.sub = None;
                silence()
            }
            StatusRequest::Once => reply(&status),
            StatusRequest::Other(_) => refuse(Reason::InvalidOperand),
        }
    }

    /// Plays, and wakes for it.
    pub(crate) fn play(&mut self, mode: PlayMode) -> Says
        ensures { does self.new result.items ≡ plays self.old (mode_deck mode) }
    {
        match deck_of_mode(mode) {
            None => refuse(Reason::InvalidOperand),
            Some(_) if self.lacks_medium() => refuse(Reason::WrongMode),
            Some(deck) => {
                self.power = true;
                self.turn(deck)
            }
        }
    }

    // Turns a deck that is on and has a medium.
    fn wind(&mut self, deck: DeckInfo) -> Says
        ensures { does self.new result.items ≡ wound self.old deck }
    {
        if !self.power || self.lacks_medium() {
            refuse(Reason::WrongMode)
        } else {
            self.turn(deck)
        }
    }

    /// Skips, stops or ejects.
    pub(crate) fn control_deck(&mut self, control: DeckControlMode) -> Says
        ensures { does self.new result.items ≡ deck_control self.old control }
    {
        match control {
            DeckControlMode::SkipForward => self.wind(DeckInfo::SkipForward),
            DeckControlMode::SkipReverse => self.wind(DeckInfo::SkipReverse),
            DeckControlMode::Stop => self.wind(DeckInfo::Stop),
            DeckControlMode::Eject if self.power => self.turn(DeckInfo::NoMedia),
            DeckControlMode::Eject => refuse(Reason::WrongMode),
            DeckControlMode::Other(_) => refuse(Reason::InvalidOperand),
        }
    }

    // Shows its menu or not, and says so.
    fn report_menu(&mut self, menu: bool) -> Says
        ensures { does self.new result.items ≡ menu_reported self.old menu }
    {
        if self.power {
            self.menu = menu;
            reply(&menu_status(menu))
        } else {
            refuse(Reason::WrongMode)
        }
    }

    /// Shows its menu, hides it, or says whether it is shown.
    pub(crate) fn ask_menu(&mut self, request: MenuRequestType) -> Says
        ensures { does self.new result.items ≡ menu_asked self.old request }
    {
        match request {
            MenuRequestType::Activate => self.report_menu(true),
            MenuRequestType::Deactivate => self.report_menu(false),
            MenuRequestType::Query => self.report_menu(self.menu),
            MenuRequestType::Other(_) => refuse(Reason::InvalidOperand),
        }
    }
}
