// The words themselves.

// Failures, with their numbers: what stands behind `failed`, `Error` and `PairingFailed`.
pub(crate) const INVALID_STATE: [u8; 36] = *b":16:InvalidState                    ";

pub(crate) const INVALID_VALUE: [u8; 36] = *b":17:InvalidValue                    ";

pub(crate) const TIMEOUT: [u8; 36] = *b":18:Timeout                         ";

pub(crate) const PASSKEY_ENTRY_FAILED: [u8; 36] = *b":33:PasskeyEntryFailed              ";

pub(crate) const AUTHENTICATION_REQUIREMENTS: [u8; 36] = *b":35:AuthenticationRequirements      ";

pub(crate) const CONFIRM_VALUE_FAILED: [u8; 36] = *b":36:ConfirmValueFailed              ";

pub(crate) const ENCRYPTION_KEY_SIZE: [u8; 36] = *b":38:EncryptionKeySize               ";

pub(crate) const INVALID_PARAMETERS: [u8; 36] = *b":42:InvalidParameters               ";

pub(crate) const DH_KEY_CHECK_FAILED: [u8; 36] = *b":43:DHKeyCheckFailed                ";

pub(crate) const NUMERIC_COMPARISON_FAILED: [u8; 36] = *b":44:NumericComparisonFailed         ";

pub(crate) const KEY_REJECTED: [u8; 36] = *b":47:KeyRejected                     ";

// Refusals.
pub(crate) const FINISHED: [u8; 36] = *b"refused:1:Finished                  ";

pub(crate) const OUTBOX_SHORT: [u8; 36] = *b"refused:2:OutboxShort               ";

pub(crate) const PASSKEY_RANGE: [u8; 36] = *b"refused:3:PasskeyRange              ";

// Levels.
pub(crate) const NO_ENCRYPTION: [u8; 36] = *b"NoEncryption                        ";

pub(crate) const ENCRYPTED: [u8; 36] = *b"Encrypted                           ";

pub(crate) const ENCRYPTED_AUTHENTICATED: [u8; 36] = *b"EncryptedAuthenticated              ";

// Methods.
pub(crate) const JUST_WORKS: [u8; 36] = *b"JustWorks                           ";

pub(crate) const NUMERIC_COMPARISON: [u8; 36] = *b"NumericComparison                   ";

pub(crate) const BOTH_DISPLAY: [u8; 36] = *b"PassKeyEntry:BothDisplay            ";

pub(crate) const CENTRAL_DISPLAYS: [u8; 36] = *b"PassKeyEntry:CentralDisplays        ";

pub(crate) const PERIPHERAL_DISPLAYS: [u8; 36] = *b"PassKeyEntry:PeripheralDisplays     ";

pub(crate) const BOTH_INPUT: [u8; 36] = *b"PassKeyEntry:BothInput              ";

pub(crate) const OUT_OF_BAND: [u8; 36] = *b"OutOfBand                           ";

// States.
pub(crate) const WAITING_PAIRING_REQUEST: [u8; 36] = *b"WaitingPairingRequest               ";

pub(crate) const WAITING_PUBLIC_KEY: [u8; 36] = *b"WaitingPublicKey                    ";

pub(crate) const WAITING_NUMERIC_COMPARISON_RANDOM: [u8; 36] =
    *b"WaitingNumericComparisonRandom      ";

pub(crate) const WAITING_NUMERIC_COMPARISON_RESULT: [u8; 36] =
    *b"WaitingNumericComparisonResult      ";

pub(crate) const WAITING_PASS_KEY_INPUT: [u8; 36] = *b"WaitingPassKeyInput                 ";

pub(crate) const WAITING_PASS_KEY_ENTRY_CONFIRM: [u8; 36] =
    *b"WaitingPassKeyEntryConfirm          ";

pub(crate) const WAITING_PASS_KEY_ENTRY_RANDOM: [u8; 36] = *b"WaitingPassKeyEntryRandom           ";

pub(crate) const WAITING_OOB_DATA: [u8; 36] = *b"WaitingOobData                      ";

pub(crate) const WAITING_OOB_RANDOM: [u8; 36] = *b"WaitingOobRandom                    ";

pub(crate) const WAITING_DH_KEY_EA: [u8; 36] = *b"WaitingDHKeyEa                      ";

pub(crate) const WAITING_LINK_ENCRYPTED: [u8; 36] = *b"WaitingLinkEncrypted                ";

pub(crate) const WAITING_IDENTITITY_INFORMATION: [u8; 36] =
    *b"WaitingIdentitityInformation        ";

pub(crate) const WAITING_IDENTITITY_ADDRESS_INFORMATION: [u8; 36] =
    *b"WaitingIdentitityAddressInformation ";

pub(crate) const SUCCESS: [u8; 36] = *b"Success                             ";

pub(crate) const ERROR: [u8; 36] = *b"Error                               ";

// Events of the user.
pub(crate) const NO_EVENT: [u8; 36] = *b"                                    ";

pub(crate) const BOND_LOST: [u8; 36] = *b"BondLost                            ";

pub(crate) const OOB_REQUEST: [u8; 36] = *b"OobRequest                          ";

pub(crate) const PASS_KEY_DISPLAY: [u8; 36] = *b"PassKeyDisplay                      ";

pub(crate) const PASS_KEY_INPUT: [u8; 36] = *b"PassKeyInput                        ";

pub(crate) const PASS_KEY_CONFIRM: [u8; 36] = *b"PassKeyConfirm                      ";

pub(crate) const PAIRING_COMPLETE: [u8; 36] = *b"PairingComplete                     ";

pub(crate) const PAIRING_FAILED: [u8; 36] = *b"PairingFailed                       ";

// Questions.
pub(crate) const NO_QUESTION: [u8; 36] = *b"-                                   ";

pub(crate) const DH: [u8; 36] = *b"DH                                  ";

pub(crate) const F4_OWN: [u8; 36] = *b"f4own                               ";

pub(crate) const F4_PEER: [u8; 36] = *b"f4peer                              ";

pub(crate) const G2: [u8; 36] = *b"g2                                  ";

pub(crate) const F5: [u8; 36] = *b"f5                                  ";

pub(crate) const F6_PEER: [u8; 36] = *b"f6peer                              ";

pub(crate) const F6_OWN: [u8; 36] = *b"f6own                               ";
